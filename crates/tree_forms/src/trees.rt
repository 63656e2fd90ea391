//! The forms of trees.
ghost use Rattle.tree_forms.specs.Trees.{Gives};
ghost use Rattle.tree_forms.specs.machine.Steps.{Expands};

use crate::refusal::DescRefusal;
use lisp_read::Tree;
use md_forms::{Forms, forms_of};
use md_iter::{Expanded, IterRefusal, expand_forms};
use rtx_tree::{Limit, MOST_FORMS};
use std::alloc::Global;

/// The trees without their iterators.
#[tactic(auto, using(crate::proofs::TooMany::passes))]
fn expanded(alloc: Global, trees: &[Tree]) -> Result<Expanded, DescRefusal>
    ensures { Expands trees.now result }
{
    match expand_forms(alloc, trees) {
        Ok(expanded) => Ok(expanded),
        Err(IterRefusal::Limit { .. }) => Err(DescRefusal::Limit {
            which: Limit::Forms,
            count: MOST_FORMS as u64 + 1,
        }),
        Err(IterRefusal::Memory) => Err(DescRefusal::Memory),
    }
}

/// The forms of a machine description's trees, those of its included files among them.
///
/// # Errors
///
/// `Limit` of `Forms` exactly where the trees make more than 20,000 forms, with 20,001; `Memory`
/// where memory ran out.
pub fn forms_of_trees(alloc: Global, trees: &[Tree]) -> Result<Forms, DescRefusal>
    ensures { Gives trees.now result }
{
    let expanded = expanded(alloc, trees)?;
    Ok(forms_of(alloc, expanded.forms.as_slice(), &expanded.constants)?)
}
