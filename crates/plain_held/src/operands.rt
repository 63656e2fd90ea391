//! Constraints that are written out as their texts.
ghost use Rattle.std.specs.Prelude.{◌≡◌, ◌↔◌, IfOk, IsTrue, map};
ghost use Rattle.plain_held.specs.Rows as spec;

use crate::row::Constrained;
use md_forms::OperandConstraint;
use md_text::{Alternative, Constraint, ConstraintNames, Direction, Letter, Member, constraint_of};
use plain_data::{Items, Memory};
use rtx_tree::Name;
use std::alloc::Global;

fn same_letter(a: Letter, b: Letter) -> bool
    ensures { IsTrue result ↔ (a ≡ b) }
{
    a == b
}

fn same_direction(a: Direction, b: Direction) -> bool
    ensures { IsTrue result ↔ (a ≡ b) }
{
    a == b
}

fn is_letter(member: &Member, letter: Letter) -> bool
    ensures { IsTrue result ↔ (member.now ≡ Member.Letter letter) }
{
    match member {
        Member::Letter(own) => same_letter(*own, letter),
        _ => false,
    }
}

fn is_tied(member: &Member, number: u8) -> bool
    ensures { IsTrue result ↔ (member.now ≡ Member.Same number) }
{
    match member {
        Member::Same(own) => *own == number,
        _ => false,
    }
}

fn is_defined(member: &Member, name: &Name) -> bool
    ensures { IsTrue result ↔ (member.now ≡ Member.Defined name.now) }
{
    match member {
        Member::Defined(own) => own.same(name),
        _ => false,
    }
}

/// Whether members are the same.
fn same_member(a: &Member, b: &Member) -> bool
    ensures { IsTrue result ↔ (a.now ≡ b.now) }
{
    match b {
        Member::Letter(letter) => is_letter(a, *letter),
        Member::Same(number) => is_tied(a, *number),
        Member::Defined(name) => is_defined(a, name),
    }
}

#[tactic(auto, using(crate::proofs::Same::same_lists))]
fn same_members(xs: &[Member], ys: &[Member]) -> bool
    ensures { IsTrue result ↔ (xs.now ≡ ys.now) }
{
    if xs.len() != ys.len() {
        return false;
    }
    for i in 0..xs.len() {
        if !same_member(&xs[i], &ys[i]) {
            return false;
        }
    }
    true
}

/// Whether the marks of alternatives are the same.
fn same_marks(a: &Alternative, b: &Alternative) -> bool
    ensures { IsTrue result ↔ (spec.marks_of a.now ≡ spec.marks_of b.now) }
{
    same_direction(a.direction, b.direction)
        && a.early == b.early
        && a.slight == b.slight
        && a.severe == b.severe
}

/// Whether alternatives are the same.
fn same_alternative(a: &Alternative, b: &Alternative) -> bool
    ensures { IsTrue result ↔ (a.now ≡ b.now) }
{
    same_marks(a, b) && same_members(a.members.as_slice(), b.members.as_slice())
}

#[tactic(auto, using(crate::proofs::Same::same_lists))]
fn same_constraint(xs: &[Alternative], ys: &[Alternative]) -> bool
    ensures { IsTrue result ↔ (xs.now ≡ ys.now) }
{
    if xs.len() != ys.len() {
        return false;
    }
    for i in 0..xs.len() {
        if !same_alternative(&xs[i], &ys[i]) {
            return false;
        }
    }
    true
}

/// The names of the constraints that the plain forms define.
pub fn names_of(alloc: Global) -> Result<ConstraintNames, Memory>
    ensures { IfOk result (λ names. names ≡ spec.names) }
{
    let mut all = Items::new(alloc);
    all.push(Name::of(alloc, b"I")?)?;
    all.push(Name::of(alloc, b"J")?)?;
    all.push(Name::of(alloc, b"K")?)?;
    all.push(Name::of(alloc, b"L")?)?;
    ConstraintNames::of(alloc, all)
}

/// The constraint of a text. A text that has none gives no alternative.
fn constraint_in(alloc: Global, names: &ConstraintNames, text: &str) -> Result<Constraint, Memory>
    ensures { IfOk result (λ constraint.
        constraint ≡ spec.constraint_in names.now text.now) }
{
    match constraint_of(alloc, text.as_bytes(), names)? {
        Some(constraint) => Ok(constraint),
        None => Ok(Items::new(alloc)),
    }
}

/// Whether the constraint of an operand is that of a text.
fn is_constrained(
    alloc: Global,
    names: &ConstraintNames,
    operand: &OperandConstraint,
    wanted: Constrained,
) -> Result<bool, Memory>
    ensures { IfOk result (λ same.
        IsTrue same ↔ (operand.now ≡ spec.constrained_of names.now wanted)) }
{
    let constraint = constraint_in(alloc, names, wanted.text)?;
    Ok(
        operand.operand == wanted.operand
            && same_constraint(operand.constraint.as_slice(), constraint.as_slice()),
    )
}

/// Whether the constraints of operands are those of some texts.
pub fn are_constrained(
    alloc: Global,
    names: &ConstraintNames,
    operands: &[OperandConstraint],
    wanted: &[Constrained],
) -> Result<bool, Memory>
    ensures { IfOk result (λ same.
        IsTrue same ↔ (operands.now ≡ map (spec.constrained_of names.now) wanted.now)) }
{
    if operands.len() != wanted.len() {
        return Ok(false);
    }
    for i in 0..operands.len() {
        if !is_constrained(alloc, names, &operands[i], wanted[i])? {
            return Ok(false);
        }
    }
    Ok(true)
}
