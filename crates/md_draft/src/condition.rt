//! The conditions and the preparation statements of forms.
ghost use Rattle.std.specs.Prelude.{◌≡◌, IfOk};
ghost use Rattle.std.specs.List.{list_all};
ghost use Rattle.std.specs.Option.{option_copied};
ghost use Rattle.md_text.specs.Lists as lists;
ghost use Rattle.md_draft.specs.Conditions as spec;

use c_cond::{Cond, Prep};
use lisp_read::{Tree, string};
use md_pattern::{Judged, Reason, both};
use name_places::Constants;
use plain_data::Memory;
use pred_expr::{condition, no_condition, no_statements, statements};
use rtx_tree::Name;
use std::alloc::Global;
use text_words::{all_blank, behind_blanks};

/// The conjunction of two conditions, each of which is one by itself.
fn both_hold(a: Judged<Cond>, b: Judged<Cond>) -> Result<Judged<Cond>, Memory>
    ensures { IfOk result (λ cond. cond ≡ spec.both_hold a b) }
{
    match both(a, b) {
        Ok((a, b)) => Ok(Ok(a.and(b)?)),
        Err(reason) => Ok(Err(reason)),
    }
}

/// A condition and that of a text, which adds nothing where it is blank.
fn and_text(
    alloc: Global,
    constants: &Constants,
    cond: Judged<Cond>,
    text: &[u8],
) -> Result<Judged<Cond>, Memory>
    ensures { IfOk result (λ all. all ≡ spec.and_text constants.now cond text.now) }
{
    if all_blank(text) {
        return Ok(cond);
    }
    both_hold(cond, condition(alloc, text, constants)?)
}

/// A text's condition with those of some values.
fn under(
    alloc: Global,
    constants: &Constants,
    values: &[Name],
    text: &[u8],
) -> Result<Judged<Cond>, Memory>
    ensures { IfOk result (λ cond. cond ≡ spec.under constants.now values.now text.now) }
{
    let mut cond = condition(alloc, text, constants)?;
    for value in values {
        cond = and_text(alloc, constants, cond, value.bytes())?;
    }
    Ok(cond)
}

/// A condition, which is a string.
fn condition_by(
    alloc: Global,
    constants: &Constants,
    values: &[Name],
    tree: &Tree,
) -> Result<Judged<Cond>, Memory>
    ensures { IfOk result (λ cond. cond ≡ spec.condition_by constants.now values.now tree.now) }
{
    match string(tree) {
        Some(text) => under(alloc, constants, values, text.bytes()),
        None => Ok(Err(Reason::Parts)),
    }
}

/// The condition of a form with those of its values.
#[tactic(auto, unfolding(crate::specs::Conditions::condition_in))]
pub fn condition_in(
    alloc: Global,
    constants: &Constants,
    values: &[Name],
    tree: Option<&Tree>,
) -> Result<Judged<Cond>, Memory>
    ensures { IfOk result (λ cond.
        cond ≡ spec.condition_in constants.now values.now (option_copied tree.entry)) }
{
    match tree {
        Some(tree) => condition_by(alloc, constants, values, tree),
        None => Ok(Ok(no_condition(alloc)?)),
    }
}

/// The condition of a split with this text, where that of the instruction stands in this tree.
fn split_under(
    alloc: Global,
    constants: &Constants,
    values: &[Name],
    insn: Option<&Tree>,
    text: &[u8],
) -> Result<Judged<Cond>, Memory>
    ensures { IfOk result (λ cond.
        cond ≡ spec.split_under constants.now values.now (option_copied insn.entry) text.now) }
{
    match behind_blanks(text) {
        [b'&', b'&', rest @ ..] => {
            let insn = condition_in(alloc, constants, values, insn)?;
            and_text(alloc, constants, insn, rest)
        }
        _ => under(alloc, constants, values, text),
    }
}

/// The condition of a split, which is joined to that of the instruction where it begins with `&&`.
#[tactic(auto, unfolding(crate::specs::Conditions::split_condition_in))]
pub fn split_condition_in(
    alloc: Global,
    constants: &Constants,
    values: &[Name],
    insn: Option<&Tree>,
    tree: Option<&Tree>,
) -> Result<Judged<Cond>, Memory>
    ensures { IfOk result (λ cond.
        cond ≡ spec.split_condition_in constants.now values.now (option_copied insn.entry)
        (option_copied tree.entry)) }
{
    let Some(tree) = tree else {
        return Ok(Ok(no_condition(alloc)?));
    };
    match string(tree) {
        Some(text) => split_under(alloc, constants, values, insn, text.bytes()),
        None => Ok(Err(Reason::Parts)),
    }
}

/// What stands in quotes or braces.
fn written(tree: &Tree) -> Option<&Name>
    ensures { option_copied result ≡ spec.written tree.now }
{
    match tree {
        Tree::Str { text, .. } | Tree::Block { text, .. } => Some(text),
        _ => None,
    }
}

/// Preparation statements, which stand in quotes or braces and may lack.
#[tactic(auto, unfolding(crate::specs::Conditions::statements_in))]
pub fn statements_in(
    alloc: Global,
    constants: &Constants,
    tree: Option<&Tree>,
) -> Result<Judged<Prep>, Memory>
    ensures { IfOk result (λ prep.
        prep ≡ spec.statements_in constants.now (option_copied tree.entry)) }
{
    let Some(tree) = tree else {
        return Ok(Ok(no_statements(alloc)?));
    };
    match written(tree) {
        Some(text) => statements(alloc, text.bytes(), constants),
        None => Ok(Err(Reason::Parts)),
    }
}
