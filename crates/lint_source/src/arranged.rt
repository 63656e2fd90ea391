//! Trees with the definitions first, so that the first forms can be counted.
ghost use Rattle.std.specs.Prelude.{◌≡◌, ◌≤◌, List, [], ◌∷◌, IfOk, length, take};
ghost use Rattle.std.specs.List.{count_by};
ghost use Rattle.lisp_read.specs.declared.tree.Tree.{Tree};
ghost use Rattle.md_iter.specs.Definition as definition;
ghost use Rattle.md_iter.specs.Expansion.{forms_of, forms_with};
ghost use Rattle.lint_source.specs.machine.Steps.{IsArranged, itself};

use lisp_read::{Tree, Trees};
use md_iter::expand_forms;
use plain_data::{Items, Memory};
use std::alloc::Global;
use std::slice;

/// How many forms some trees make.
fn forms_in(alloc: Global, trees: &[Tree]) -> Result<usize, Memory>
    ensures { IfOk result (λ count. count ≡ length (forms_of trees.now)) }
{
    match expand_forms(alloc, trees) {
        Ok(expanded) => Ok(expanded.forms.len()),
        Err(_) => Err(Memory),
    }
}

/// Whether a tree is a form, and no definition of an iterator, of its attribute or of constants: by
/// itself it makes one then.
#[tactic(auto, using(crate::proofs::ArrangedLaws::by_itself))]
fn is_form(alloc: Global, tree: &Tree) -> Result<bool, Memory>
    ensures { IfOk result (λ is_form. is_form ≡ definition.is_form tree.now) }
{
    let count = forms_in(alloc, slice::from_ref(tree))?;
    Ok(count > 0)
}

/// Trees with the definitions first, which make no forms and hold wherever they stand.
#[derive(Drop)]
pub struct Arranged {
    /// The definitions, in order, and behind them the forms, in order.
    trees: Trees,
    /// How many definitions there are.
    definitions: usize,
    /// Which trees are forms, as they stood before.
    are_forms: Items<bool>,
}

/// Puts the definitions first.
pub fn arrange(alloc: Global, trees: Trees) -> Result<Arranged, Memory>
    ensures { IfOk result (IsArranged trees) }
{
    let mut definitions = Items::new(alloc);
    let mut forms = Items::new(alloc);
    let mut are_forms = Items::new(alloc);
    for tree in trees.into_vec() {
        let is_form = is_form(alloc, &tree)?;
        are_forms.push(is_form)?;
        if is_form {
            forms.push(tree)?;
        } else {
            definitions.push(tree)?;
        }
    }
    let count = definitions.len();
    Ok(Arranged {
        trees: definitions.append(forms)?,
        definitions: count,
        are_forms,
    })
}

impl Arranged {
    /// How many trees there are.
    #[tactic(auto, using(crate::proofs::ArrangedLaws::as_many))]
    pub fn len(&self) -> usize
        ensures { (trees : List Tree) → IsArranged trees self.now → result ≡ length trees }
    {
        self.are_forms.len()
    }

    /// How many forms the first trees make, by the definitions of all.
    pub fn forms_before(&self, alloc: Global, end: usize) -> Result<usize, Memory>
        ensures { (trees : List Tree) → IsArranged trees self.now → end ≤ length trees →
            IfOk result (λ count. count ≡
            length (forms_with (definition.definitions_in trees) (take end trees))) }
    {
        if end > self.are_forms.len() {
            return Err(Memory);
        }
        let forms = set_in(&self.are_forms.as_slice()[..end]);
        let Some(count) = self.definitions.checked_add(forms) else {
            return Err(Memory);
        };
        if count > self.trees.len() {
            return Err(Memory);
        }
        forms_in(alloc, &self.trees.as_slice()[..count])
    }
}

/// How many of some are true.
fn set_in(are_forms: &[bool]) -> usize
    ensures { result ≡ count_by itself are_forms.now }
{
    are_forms.iter().filter(|is_form| **is_form).count()
}
