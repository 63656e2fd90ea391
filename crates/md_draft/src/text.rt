//! The other parts of forms: attributes, and what definitions say.
ghost use Rattle.std.specs.Prelude.{◌≡◌, IfOk, option_and_then};
ghost use Rattle.std.specs.Option.{option_copied};
ghost use Rattle.lisp_read.specs.Shape.{items_of, string_of};
ghost use Rattle.md_text.specs.Lists as lists;
ghost use Rattle.md_draft.specs.Head.{class_named};
ghost use Rattle.md_draft.specs.Parts as spec;

use crate::draft::Attribute;
use crate::head::RegisterClass;
use lisp_read::{Tree, is_vector, is_word, items, string, vector};
use md_pattern::{Judged, Reason};
use md_text::members_of;
use name_places::Constants;
use plain_data::{Items, Memory};
use pred_expr::{Test, test_of};
use rtx_tree::Name;
use std::alloc::Global;

// ---- attributes

fn attribute_with(alloc: Global, name: &Name, values: &[u8]) -> Result<Attribute, Memory>
    ensures { IfOk result (λ attribute. attribute ≡ spec.attribute_with name.now values.now) }
{
    Ok(Attribute {
        name: name.copy(alloc)?,
        values: members_of(alloc, values)?,
    })
}

/// `(set_attr "NAME" "VALUES")`
fn attribute_in(alloc: Global, tree: &Tree) -> Result<Option<Attribute>, Memory>
    ensures { IfOk result (λ attribute. attribute ≡ spec.attribute_in tree.now) }
{
    match items(tree) {
        [head, name, values] if is_word(head, b"set_attr") => match (string(name), string(values)) {
            (Some(name), Some(values)) => Ok(Some(attribute_with(alloc, name, values.bytes())?)),
            _ => Ok(None),
        },
        _ => Ok(None),
    }
}

#[tactic(auto, using(md_text::proofs::Each::with_nothing, md_text::proofs::Each::each_next, md_text::proofs::Each::each_stops, md_text::proofs::Each::each_ends))]
fn attributes_of(alloc: Global, trees: &[Tree]) -> Result<Option<Items<Attribute>>, Memory>
    ensures { IfOk result (λ attributes. attributes ≡ lists.each spec.attribute_in trees.now) }
{
    let mut attributes = Items::new(alloc);
    for tree in trees {
        match attribute_in(alloc, tree)? {
            Some(attribute) => attributes.push(attribute)?,
            None => return Ok(None),
        }
    }
    Ok(Some(attributes))
}

/// A vector of `set_attr`s.
fn attribute_vector(alloc: Global, tree: &Tree) -> Result<Judged<Items<Attribute>>, Memory>
    ensures { IfOk result (λ attributes. attributes ≡ spec.attributes_by tree.now) }
{
    if !is_vector(tree) {
        return Ok(Err(Reason::Parts));
    }
    match attributes_of(alloc, vector(tree))? {
        Some(attributes) => Ok(Ok(attributes)),
        None => Ok(Err(Reason::Parts)),
    }
}

/// The attributes of a form, which may lack.
#[tactic(auto, unfolding(crate::specs::Parts::attributes_in))]
pub fn attributes_in(alloc: Global, tree: Option<&Tree>) -> Result<Judged<Items<Attribute>>, Memory>
    ensures { IfOk result (λ attributes.
        attributes ≡ spec.attributes_in (option_copied tree.entry)) }
{
    match tree {
        Some(tree) => attribute_vector(alloc, tree),
        None => Ok(Ok(Items::new(alloc))),
    }
}

// ---- what definitions say

/// The test of a predicate or of a constraint.
#[tactic(auto, unfolding(crate::specs::Parts::test_in))]
pub fn test_in(
    alloc: Global,
    constants: &Constants,
    tree: Option<&Tree>,
) -> Result<Judged<Option<Test>>, Memory>
    ensures { IfOk result (λ test. test ≡ spec.test_in constants.now (option_copied tree.entry)) }
{
    let Some(tree) = tree else {
        return Ok(Ok(None));
    };
    match test_of(alloc, tree, constants)? {
        Ok(test) => Ok(Ok(Some(test))),
        Err(reason) => Ok(Err(reason)),
    }
}

fn class_by(tree: &Tree) -> Option<RegisterClass>
    ensures { result ≡ option_and_then class_named (string_of tree.now) }
{
    RegisterClass::named(string(tree)?.bytes())
}

/// The class of a register constraint.
#[tactic(auto, unfolding(crate::specs::Parts::class_in))]
pub fn class_in(tree: Option<&Tree>) -> Judged<Option<RegisterClass>>
    ensures { result ≡ spec.class_in (option_copied tree.entry) }
{
    let Some(tree) = tree else {
        return Ok(None);
    };
    match class_by(tree) {
        Some(class) => Ok(Some(class)),
        None => Err(Reason::Parts),
    }
}

/// The values of an attribute.
#[tactic(auto, unfolding(crate::specs::Parts::values_in))]
pub fn values_in(alloc: Global, tree: Option<&Tree>) -> Result<Judged<Items<Name>>, Memory>
    ensures { IfOk result (λ values. values ≡ spec.values_in (option_copied tree.entry)) }
{
    let Some(tree) = tree else {
        return Ok(Ok(Items::new(alloc)));
    };
    match string(tree) {
        Some(text) => Ok(Ok(members_of(alloc, text.bytes())?)),
        None => Ok(Err(Reason::Parts)),
    }
}

/// `(const_string "VALUE")`
fn default_by(tree: &Tree) -> Option<&Name>
    ensures { option_copied result ≡ spec.default_by (items_of tree.now) }
{
    match items(tree) {
        [head, value] if is_word(head, b"const_string") => string(value),
        _ => None,
    }
}

/// The default of an attribute.
#[tactic(auto, unfolding(crate::specs::Parts::default_in))]
pub fn default_in(alloc: Global, tree: Option<&Tree>) -> Result<Judged<Name>, Memory>
    ensures { IfOk result (λ default. default ≡ spec.default_in (option_copied tree.entry)) }
{
    let Some(tree) = tree else {
        return Ok(Ok(Name::empty(alloc)));
    };
    match default_by(tree) {
        Some(name) => Ok(Ok(name.copy(alloc)?)),
        None => Ok(Err(Reason::Parts)),
    }
}
