//! The description of a name.
ghost use Rattle.std.specs.Prelude.{◌≡◌, ◌≢◌, ◌↔◌, ℕ, List, Result, Err};
ghost use Rattle.byte_edge.specs.Causes.{Rose};
ghost use Rattle.rtx_tree.specs.declared.constants.Constant.{Constant};
ghost use Rattle.md_iter.specs.declared.substitution.Instance.{Instance};
ghost use Rattle.md_source.specs.Source.{Source};
ghost use Rattle.md_source.specs.Asked.{AreNamed, GrewBy, IsKnown};
ghost use Rattle.md_source.specs.Answers.{Agrees};
ghost use Rattle.md_source.specs.Faults.{FaultsAt, AsksBy};
ghost use Rattle.md_forms.specs.declared.form.Entry.{Entry};
ghost use Rattle.run_refusal.specs.declared.refusal.Refusal.{Refusal};
ghost use Rattle.law_predicates.specs.Meaning.{PredicatesAre};
ghost use Rattle.law_predicates.specs.Texts.{TextsAreRead};
ghost use Rattle.md_named.specs.Named as spec;
ghost use Rattle.md_named.specs.Answers.{Gives};
ghost use Rattle.md_named.specs.machine.Steps.{DescribesRun};

use byte_edge::Files;
use lisp_read::Tree;
use md_desc::{DescRefusal, Description, describe};
use md_source::{SourceRefusal, gather};
use rtx_tree::{Limit, MOST_BYTES, MOST_OPEN, MOST_WITHIN};
use run_refusal::Refusal;
use std::alloc::Global;

/// The refusal of a run for that of the files.
pub fn source_refused(refusal: SourceRefusal) -> Refusal
    ensures { result ≡ spec.source_refused refusal }
{
    match refusal {
        SourceRefusal::Syntax { file, place } => Refusal::Syntax { file, place },
        SourceRefusal::Depth => Refusal::Limit {
            which: Limit::Depth,
            count: MOST_OPEN as u64 + 1,
        },
        SourceRefusal::Include => Refusal::Limit {
            which: Limit::Include,
            count: MOST_WITHIN as u64 + 1,
        },
        SourceRefusal::Text => Refusal::Limit {
            which: Limit::Text,
            count: MOST_BYTES as u64 + 1,
        },
        SourceRefusal::ReadFault => Refusal::ReadFault,
        SourceRefusal::Memory => Refusal::Memory,
    }
}

/// The description of some trees.
fn described(alloc: Global, trees: &[Tree]) -> Result<Description, Refusal>
    ensures { DescribesRun trees.now result }
{
    match describe(alloc, trees) {
        Ok(description) => Ok(description),
        Err(DescRefusal::Limit { which, count }) => Err(Refusal::Limit { which, count }),
        Err(DescRefusal::Memory) => Err(Refusal::Memory),
    }
}

/// The description of a name: `rv64im` is the shipped one, any other name is asked of the files.
///
/// # Errors
///
/// `Syntax`, `Limit` of `Depth`, `Include` or `Text`, and `ReadFault` where the files of the
/// description are refused, as [`gather`] says; `Limit` of `Forms` exactly where there are more
/// than 20,000 forms; `Memory` where memory ran out.
#[tactic(auto, using(crate::proofs::Forms::no_fault, crate::proofs::Forms::is_fault))]
pub fn description_of<F: Files>(
    alloc: Global,
    files: &mut F,
    name: &[u8],
) -> Result<Description, Refusal>
    // The answer is what the description comes to, by all that is known of the files, unless memory
    // ran out or they failed.
    ensures gives { (source : Source) → Agrees source (F.holds files.old) →
        Gives result (spec.FormsCome source name.now) }

    // By files of which all that the description is made of is known, it comes to one answer.
    ensures one { (source : Source) → IsKnown source name.now →
        (a b : Result (List Entry) Refusal) →
        spec.FormsCome source name.now a → spec.FormsCome source name.now b → a ≡ b }

    // The predicates of forms are what the trees of their definitions say: which tests these are,
    // which predicates are accepted, and
    // which operands those accept.
    ensures predicates { (constants : List Constant) (forms : List Instance) →
        PredicatesAre constants forms }

    // The conditions and statements of forms are what the grammar says of their texts: which trees
    // these are, and which texts are set aside.
    ensures texts { (constants : List Constant) → TextsAreRead constants }

    // Files are asked only for what is named, and stay as they are.
    ensures asked { (source : Source) → Agrees source (F.holds files.old) →
        GrewBy (AreNamed source name.now) (F.asked files.old) (F.asked files.new) }
    ensures same { (n bytes : List ℕ) → F.holds files.new n bytes ↔ F.holds files.old n bytes }

    // Faults are counted. The names asked for end at the one that failed, and nothing that is read
    // before it is refused.
    ensures faulted { result ≡ Err Refusal.ReadFault →
        (source : Source) → Agrees source (F.holds files.old) →
        AsksBy (FaultsAt source name.now) (F.asked files.old) (F.asked files.new) }
    ensures fault { result ≡ Err Refusal.ReadFault →
        Rose (F.fault_count files.old) (F.fault_count files.new) }
    ensures quiet { result ≢ Err Refusal.ReadFault →
        F.fault_count files.new ≡ F.fault_count files.old }
{
    match gather(alloc, files, name) {
        Ok(trees) => described(alloc, trees.as_slice()),
        Err(e) => Err(source_refused(e)),
    }
}
