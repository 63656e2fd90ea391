//! Descriptions of trees.
ghost use Rattle.tree_forms.specs.Trees.{Gives};

use crate::description::Description;
use lisp_read::Tree;
use std::alloc::Global;
use tree_forms::{DescRefusal, forms_of_trees};

/// The description of a machine description's trees, those of its included files among them.
///
/// # Errors
///
/// `Limit` of `Forms` exactly where the trees make more than 20,000 forms, with 20,001; `Memory`
/// where memory ran out.
pub fn describe(alloc: Global, trees: &[Tree]) -> Result<Description, DescRefusal>
    ensures { Gives trees.now result }
{
    let forms = forms_of_trees(alloc, trees)?;
    Ok(Description::of(alloc, forms)?)
}
