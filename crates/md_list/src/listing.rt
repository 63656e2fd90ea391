//! The list of a description.
ghost use Rattle.std.specs.Prelude.{◌≡◌, ◌≢◌, ◌↔◌, ℕ, List, IfOk, Result, Err};
ghost use Rattle.byte_edge.specs.Causes.{Rose};
ghost use Rattle.md_source.specs.Source.{Source};
ghost use Rattle.md_source.specs.Asked.{AreNamed, GrewBy, IsKnown};
ghost use Rattle.md_source.specs.Answers.{Agrees};
ghost use Rattle.md_source.specs.Faults.{FaultsAt, AsksBy};
ghost use Rattle.md_source.specs.declared.refusal.SourceRefusal.TheVariants as source_refusal;
ghost use Rattle.md_list.specs.Answers.{Gives};
ghost use Rattle.md_list.specs.machine.Steps.{GivesTrees};
ghost use Rattle.md_list.specs.Listing as spec;
ghost use Rattle.md_list.specs.declared.refusal.ListRefusal.{ListRefusal};
ghost use Rattle.md_list.specs.declared.refusal.ListRefusal.TheVariants as refused;

use crate::line::print_list;
use crate::refusal::ListRefusal;
use byte_edge::Files;
use lisp_read::Tree;
use md_forms::{Forms, names_of};
use md_source::gather;
use plain_data::Memory;
use std::alloc::Global;
use tree_forms::{DescRefusal, forms_of_trees};

/// The list of some forms.
fn list_forms(alloc: Global, forms: &Forms) -> Result<Vec<u8>, Memory>
    ensures { IfOk result (λ text. text.items ≡ spec.list_of forms.now) }
{
    let names = names_of(alloc, forms.as_slice())?;
    let mut text = Vec::new(alloc);
    print_list(forms.as_slice(), names.as_slice(), &mut text)?;
    Ok(text)
}

/// The list of a description's trees.
fn list_trees(alloc: Global, trees: &[Tree]) -> Result<Vec<u8>, ListRefusal>
    ensures { GivesTrees trees.now result }
{
    match forms_of_trees(alloc, trees) {
        Ok(forms) => Ok(list_forms(alloc, &forms)?),
        Err(DescRefusal::Limit { .. }) => Err(ListRefusal::Forms),
        Err(DescRefusal::Memory) => Err(ListRefusal::Memory),
    }
}

/// The list of the description of a name: `rv64im` is the shipped one, any other name is asked of
/// the files.
///
/// # Errors
///
/// `Source` where the files of the description are refused, as [`gather`] says; `Forms` exactly
/// where there are more than 20,000 forms; `Memory` where memory ran out.
pub fn list<F: Files>(alloc: Global, files: &mut F, name: &[u8]) -> Result<Vec<u8>, ListRefusal>
    // The answer is what the list comes to, by all that is known of the files, unless memory ran
    // out or they failed.
    ensures gives { (source : Source) → Agrees source (F.holds files.old) →
        Gives (spec.ListComes source name.now) result }

    // By files of which all that the description is made of is known, it comes to one answer.
    ensures one { (source : Source) → IsKnown source name.now →
        (a b : Result (List ℕ) ListRefusal) →
        spec.ListComes source name.now a → spec.ListComes source name.now b → a ≡ b }

    // Files are asked only for what is named, and stay as they are.
    ensures asked { (source : Source) → Agrees source (F.holds files.old) →
        GrewBy (AreNamed source name.now) (F.asked files.old) (F.asked files.new) }
    ensures same { (n bytes : List ℕ) → F.holds files.new n bytes ↔ F.holds files.old n bytes }

    // Faults are counted. The names asked for end at the one that failed, and nothing that is read
    // before it is refused.
    ensures faulted { result ≡ Err (refused.Source source_refusal.ReadFault) →
        (source : Source) → Agrees source (F.holds files.old) →
        AsksBy (FaultsAt source name.now) (F.asked files.old) (F.asked files.new) }
    ensures fault { result ≡ Err (refused.Source source_refusal.ReadFault) →
        Rose (F.fault_count files.old) (F.fault_count files.new) }
    ensures quiet { result ≢ Err (refused.Source source_refusal.ReadFault) →
        F.fault_count files.new ≡ F.fault_count files.old }
{
    match gather(alloc, files, name) {
        Ok(trees) => list_trees(alloc, trees.as_slice()),
        Err(e) => Err(ListRefusal::Source(e)),
    }
}
