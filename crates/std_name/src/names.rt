//! The table of standard names.
ghost use Rattle.std.specs.Prelude.{◌≡◌, ◌∷◌, ◌++◌, [], IfOk, OnOk};
ghost use Rattle.rtx_tree.specs.Tree.{kids_of};
ghost use Rattle.rtl_func.specs.Shapes.{class_at};
ghost use Rattle.std_name.specs.Names as spec;
ghost use Rattle.std_name.specs.Operands as operands;

use crate::operands::{comparison, fixed, input, is_vars, target};
use crate::standard::{Standard, StandardOperand};
use crate::words::{row, word_of};
use plain_data::{Items, Memory};
use rtl_func::{class_at, is_called, is_constant};
use rtx_tree::{Class, Mode, Rtx};
use std::alloc::Global;

/// What an instruction sets, and one value that it takes.
fn one_input(alloc: Global, x: &Rtx, mode: Mode, a: &Rtx) -> Result<Items<StandardOperand>, Memory>
    ensures { IfOk result (λ items.
        items ≡ operands.target x.now ∷ operands.input mode a.now ∷ []) }
{
    let mut items = Items::new(alloc);
    items.push(target(alloc, x)?)?;
    items.push(input(alloc, mode, a)?)?;
    Ok(items)
}

/// What an instruction sets, and two values that it takes, each with the mode of a constant in its
/// place.
fn two_inputs(
    alloc: Global,
    x: &Rtx,
    mode: Mode,
    a: &Rtx,
    other: Mode,
    b: &Rtx,
) -> Result<Items<StandardOperand>, Memory>
    ensures { IfOk result (λ items.
        items ≡ operands.target x.now ∷ operands.input mode a.now ∷ operands.input other b.now ∷
        []) }
{
    let mut items = one_input(alloc, x, mode, a)?;
    items.push(input(alloc, other, b)?)?;
    Ok(items)
}

/// Puts a comparison and its operands behind others.
fn push_compared(
    alloc: Global,
    mode: Mode,
    test: &Rtx,
    a: &Rtx,
    b: &Rtx,
    items: &mut Items<StandardOperand>,
) -> Result<(), Memory>
    ensures { OnOk result (items.new ≡ items.old ++ spec.compared mode test.now a.now b.now []) }
{
    items.push(comparison(alloc, test)?)?;
    items.push(input(alloc, mode, a)?)?;
    items.push(input(alloc, mode, b)?)
}

fn call_row(alloc: Global, place: &Rtx, size: &Rtx) -> Result<Option<Standard>, Memory>
    ensures { IfOk result (λ r. r ≡ spec.call_row place.now size.now) }
{
    if !is_called(place, size) {
        return Ok(None);
    }
    let mut items = Items::new(alloc);
    items.push(input(alloc, Mode::Void, place)?)?;
    items.push(fixed(alloc, size)?)?;
    row(alloc, "call", &[], "", items)
}

fn call_value_row(
    alloc: Global,
    x: &Rtx,
    place: &Rtx,
    size: &Rtx,
) -> Result<Option<Standard>, Memory>
    ensures { IfOk result (λ r. r ≡ spec.call_value_row x.now place.now size.now) }
{
    if !is_called(place, size) {
        return Ok(None);
    }
    let mut items = one_input(alloc, x, Mode::Void, place)?;
    items.push(fixed(alloc, size)?)?;
    row(alloc, "call_value", &[], "", items)
}

fn move_row(alloc: Global, x: &Rtx, source: &Rtx) -> Result<Option<Standard>, Memory>
    ensures { IfOk result (λ r. r ≡ spec.move_row x.now source.now) }
{
    if is_vars(source) {
        return Ok(None);
    }
    let items = one_input(alloc, x, x.mode, source)?;
    row(alloc, "mov", &[x.mode], "", items)
}

/// The mode of a comparison's operands, of which one may be a constant.
fn compared_mode(a: &Rtx, b: &Rtx) -> Mode
    ensures { result ≡ spec.compared_mode a.now b.now }
{
    if is_constant(a) { b.mode } else { a.mode }
}

/// An operation on two values, each with the mode of a constant in its place.
fn binary_row(
    alloc: Global,
    x: &Rtx,
    source: &Rtx,
    a: &Rtx,
    other: Mode,
    b: &Rtx,
) -> Result<Option<Standard>, Memory>
    ensures { IfOk result (λ r. r ≡ spec.binary_row x.now source.now a.now other b.now) }
{
    let items = two_inputs(alloc, x, source.mode, a, other, b)?;
    row(alloc, word_of(source.code), &[source.mode], "3", items)
}

fn unary_row(alloc: Global, x: &Rtx, source: &Rtx, a: &Rtx) -> Result<Option<Standard>, Memory>
    ensures { IfOk result (λ r. r ≡ spec.unary_row x.now source.now a.now) }
{
    let items = one_input(alloc, x, source.mode, a)?;
    row(alloc, word_of(source.code), &[source.mode], "2", items)
}

/// An extension or a truncation.
fn conversion_row(alloc: Global, x: &Rtx, source: &Rtx, a: &Rtx) -> Result<Option<Standard>, Memory>
    ensures { IfOk result (λ r. r ≡ spec.conversion_row x.now source.now a.now) }
{
    let items = one_input(alloc, x, Mode::Void, a)?;
    row(
        alloc,
        word_of(source.code),
        &[a.mode, source.mode],
        "2",
        items,
    )
}

fn compare_row(
    alloc: Global,
    x: &Rtx,
    test: &Rtx,
    a: &Rtx,
    b: &Rtx,
) -> Result<Option<Standard>, Memory>
    ensures { IfOk result (λ r. r ≡ spec.compare_row x.now test.now a.now b.now) }
{
    let mode = compared_mode(a, b);
    let mut items = Items::new(alloc);
    items.push(target(alloc, x)?)?;
    push_compared(alloc, mode, test, a, b, &mut items)?;
    row(alloc, "cstore", &[mode], "4", items)
}

/// The row of an instruction that sets a place to a value.
fn value_row(alloc: Global, x: &Rtx, source: &Rtx) -> Result<Option<Standard>, Memory>
    ensures { IfOk result (λ r. r ≡ spec.value_row (class_at source.now) x.now source.now
        (kids_of source.now)) }
{
    match (class_at(source), source.kids.as_slice()) {
        (Class::Binary, [a, b]) => binary_row(alloc, x, source, a, source.mode, b),
        (Class::Shift, [a, count]) => binary_row(alloc, x, source, a, Mode::Void, count),
        (Class::Unary, [a]) => unary_row(alloc, x, source, a),
        (Class::Extension | Class::Truncation, [a]) => conversion_row(alloc, x, source, a),
        (Class::Comparison, [a, b]) => compare_row(alloc, x, source, a, b),
        (Class::Call, [place, size]) => call_value_row(alloc, x, place, size),
        _ => move_row(alloc, x, source),
    }
}

fn label_row(alloc: Global, uid: &Rtx) -> Result<Option<Standard>, Memory>
    ensures { IfOk result (λ r. r ≡ spec.label_row uid.now) }
{
    if !is_constant(uid) {
        return Ok(None);
    }
    let mut items = Items::new(alloc);
    items.push(fixed(alloc, uid)?)?;
    row(alloc, "jump", &[], "", items)
}

fn jump_row(alloc: Global, target: &Rtx) -> Result<Option<Standard>, Memory>
    ensures { IfOk result (λ r. r ≡ spec.jump_row (class_at target.now) (kids_of target.now)) }
{
    match (class_at(target), target.kids.as_slice()) {
        (Class::Label, [uid]) => label_row(alloc, uid),
        _ => Ok(None),
    }
}

fn compared_branch(
    alloc: Global,
    test: &Rtx,
    a: &Rtx,
    b: &Rtx,
    uid: &Rtx,
) -> Result<Option<Standard>, Memory>
    ensures { IfOk result (λ r. r ≡ spec.compared_branch test.now a.now b.now uid.now) }
{
    if !is_constant(uid) {
        return Ok(None);
    }
    let mode = compared_mode(a, b);
    let mut items = Items::new(alloc);
    push_compared(alloc, mode, test, a, b, &mut items)?;
    items.push(fixed(alloc, uid)?)?;
    row(alloc, "cbranch", &[mode], "4", items)
}

fn branch_by(alloc: Global, test: &Rtx, label: &Rtx) -> Result<Option<Standard>, Memory>
    ensures { IfOk result (λ r. r ≡ spec.branch_by (class_at test.now) test.now
        (kids_of test.now) (class_at label.now) (kids_of label.now)) }
{
    match (
        class_at(test),
        test.kids.as_slice(),
        class_at(label),
        label.kids.as_slice(),
    ) {
        (Class::Comparison, [a, b], Class::Label, [uid]) => {
            compared_branch(alloc, test, a, b, uid)
        }
        _ => Ok(None),
    }
}

fn branch_row(
    alloc: Global,
    test: &Rtx,
    label: &Rtx,
    next: &Rtx,
) -> Result<Option<Standard>, Memory>
    ensures { IfOk result (λ r. r ≡ spec.branch_row test.now label.now next.now) }
{
    if next.is_pc() {
        branch_by(alloc, test, label)
    } else {
        Ok(None)
    }
}

/// The row of a jump, by what the pc is set to.
fn go_row(alloc: Global, source: &Rtx) -> Result<Option<Standard>, Memory>
    ensures { IfOk result (λ r. r ≡ spec.go_row (class_at source.now) (kids_of source.now)) }
{
    match (class_at(source), source.kids.as_slice()) {
        (Class::Branch, [test, label, next]) => branch_row(alloc, test, label, next),
        _ => jump_row(alloc, source),
    }
}

fn set_row(alloc: Global, x: &Rtx, source: &Rtx) -> Result<Option<Standard>, Memory>
    ensures { IfOk result (λ r. r ≡ spec.set_row x.now source.now) }
{
    if x.is_pc() {
        go_row(alloc, source)
    } else {
        value_row(alloc, x, source)
    }
}

/// The standard name of an instruction's pattern, with its operands, where it has one.
pub fn standard_of(alloc: Global, pattern: &Rtx) -> Result<Option<Standard>, Memory>
    ensures { IfOk result (λ r. r ≡ spec.standard_of pattern.now) }
{
    match (class_at(pattern), pattern.kids.as_slice()) {
        (Class::Setting, [x, source]) => set_row(alloc, x, source),
        (Class::Call, [place, size]) => call_row(alloc, place, size),
        _ => Ok(None),
    }
}
