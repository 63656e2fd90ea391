//! The description of a name, with the trees of its forms.
ghost use Rattle.std.specs.Prelude.{◌≡◌, ◌≤◌, ◌↔◌, ℕ, List, Ok, IfOk, IfErr, length};
ghost use Rattle.rtx_tree.specs.Limit.{most_forms};
ghost use Rattle.tree_forms.specs.Trees.{expanded as expanded_of, forms_of};
ghost use Rattle.md_iter.specs.Definition.{all_constants_in};
ghost use Rattle.md_source.specs.Source.{Source, DescriptionComes};
ghost use Rattle.md_source.specs.Answers.{Agrees};
ghost use Rattle.lint_source.specs.Sourced.{IsSourced, IsNoComparison};

use byte_edge::Files;
use lisp_read::{Tree, Trees};
use md_desc::{DescRefusal, Description, describe};
use md_iter::{Expanded, Instance, IterRefusal, expand_forms};
use md_named::source_refused;
use md_source::gather;
use name_places::Constants;
use plain_data::Items;
use rtx_tree::{Limit, MOST_FORMS};
use run_refusal::Refusal;
use std::alloc::Global;

/// A description, with the trees that it comes of.
#[derive(Drop)]
pub struct Sourced {
    /// The description.
    pub description: Description,
    /// Its trees, in order, those of its includes at their places.
    pub trees: Trees,
    /// Its forms as they are written, with values in the places of iterators.
    pub instances: Items<Instance>,
    /// The constants that it defines.
    pub constants: Constants,
}

/// The refusal of more than 20,000 forms.
fn too_many() -> Refusal
    ensures { IsNoComparison result }
{
    Refusal::Limit {
        which: Limit::Forms,
        count: MOST_FORMS as u64 + 1,
    }
}

/// The trees of the description of a name.
#[tactic(auto, using(crate::proofs::SourcedLaws::of_files))]
fn gathered<F: Files>(alloc: Global, files: &mut F, name: &[u8]) -> Result<Trees, Refusal>
    ensures trees { (source : Source) → Agrees source (F.holds files.old) →
        IfOk result (λ trees. DescriptionComes source name.now (Ok trees)) }
    ensures same { (n bytes : List ℕ) → F.holds files.new n bytes ↔ F.holds files.old n bytes }
    ensures refused { IfErr result IsNoComparison }
{
    match gather(alloc, files, name) {
        Ok(trees) => Ok(trees),
        Err(refusal) => Err(source_refused(refusal)),
    }
}

/// Trees without their iterators.
fn expanded(alloc: Global, trees: &[Tree]) -> Result<Expanded, Refusal>
    ensures forms { IfOk result (λ expanded. expanded.forms ≡ expanded_of trees.now) }
    ensures constants { IfOk result (λ expanded. expanded.constants ≡ all_constants_in trees.now) }
    ensures refused { IfErr result IsNoComparison }
{
    match expand_forms(alloc, trees) {
        Ok(expanded) => Ok(expanded),
        Err(IterRefusal::Limit { .. }) => Err(too_many()),
        Err(IterRefusal::Memory) => Err(Refusal::Memory),
    }
}

/// The description of some trees.
fn described(alloc: Global, trees: &[Tree]) -> Result<Description, Refusal>
    ensures forms { IfOk result (λ description. description ≡ forms_of trees.now) }
    ensures few { IfOk result (λ description. length (expanded_of trees.now) ≤ most_forms) }
    ensures refused { IfErr result IsNoComparison }
{
    match describe(alloc, trees) {
        Ok(description) => Ok(description),
        Err(DescRefusal::Limit { .. }) => Err(too_many()),
        Err(DescRefusal::Memory) => Err(Refusal::Memory),
    }
}

/// The description of a name, with the trees that it comes of: `rv64im` is the shipped one, any
/// other name is asked of the files.
#[tactic(auto, using(crate::proofs::SourcedLaws::is_sourced))]
pub fn read_description<F: Files>(
    alloc: Global,
    files: &mut F,
    name: &[u8],
) -> Result<Sourced, Refusal>
    ensures sourced { (source : Source) → Agrees source (F.holds files.old) →
        IfOk result (IsSourced source name.now) }
    ensures same { (n bytes : List ℕ) → F.holds files.new n bytes ↔ F.holds files.old n bytes }
    ensures refused { IfErr result IsNoComparison }
{
    let trees = gathered(alloc, files, name)?;
    let description = described(alloc, trees.as_slice())?;
    let Expanded { forms, constants } = expanded(alloc, trees.as_slice())?;
    Ok(Sourced {
        description,
        trees,
        instances: forms,
        constants,
    })
}
