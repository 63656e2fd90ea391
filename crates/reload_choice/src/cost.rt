//! What an alternative costs.
ghost use Rattle.std.specs.Prelude.{◌≡◌, ◌+◌, ◌≤◌, length, IfOk};
ghost use Rattle.reload_choice.specs.Choice as spec;

use md_forms::OperandConstraint;
use md_text::Alternative;
use plain_data::Memory;
use reload_moves::{Ask, Move, Part, moves_after, moves_before};
use std::alloc::Global;

/// The sum of two costs. One past 64 bits finds no memory.
fn sum(a: u64, b: u64) -> Result<u64, Memory>
    ensures { IfOk result (λ total. total ≡ a + b) }
{
    match a.checked_add(b) {
        Some(total) => Ok(total),
        None => Err(Memory),
    }
}

fn is_base_move(step: Move) -> bool
    ensures { result ≡ spec.is_base_move step }
{
    matches!(step, Move::Far { .. } | Move::Base { .. })
}

/// How many of some moves make or load a base.
fn base_count(moves: &[Move]) -> usize
    ensures value { result ≡ spec.base_count moves.now }
    ensures within { result ≤ length moves.now }
{
    let mut count = 0;
    for step in moves {
        if is_base_move(*step) {
            count += 1;
        }
    }
    count
}

/// How many operands are moved.
fn moved_count(parts: &[Part]) -> usize
    ensures value { result ≡ spec.moved_count parts.now }
    ensures within { result ≤ length parts.now }
{
    let mut count = 0;
    for p in parts {
        if p.is_moved {
            count += 1;
        }
    }
    count
}

/// What the marks of an alternative cost.
fn marks_of(a: &Alternative) -> Result<u64, Memory>
    ensures { IfOk result (λ marks. marks ≡ spec.marks_of a.now) }
{
    match a.severe.checked_mul(100) {
        Some(severe) => sum(a.slight, severe),
        None => Err(Memory),
    }
}

fn marks_at(alternative: u32, k: &OperandConstraint) -> Result<u64, Memory>
    ensures { IfOk result (λ marks. marks ≡ spec.marks_at alternative k.now) }
{
    match k.constraint.as_slice().get(alternative as usize) {
        Some(a) => marks_of(a),
        None => Ok(0),
    }
}

fn marks(constraints: &[OperandConstraint], alternative: u32) -> Result<u64, Memory>
    ensures { IfOk result (λ marks. marks ≡ spec.marks constraints.now alternative) }
{
    let mut total = 0;
    for k in constraints {
        total = sum(total, marks_at(alternative, k)?)?;
    }
    Ok(total)
}

/// What the moves cost.
fn moves_cost(alloc: Global, asks: &[Ask], parts: &[Part]) -> Result<u64, Memory>
    requires { length asks.now ≤ 4 }
    ensures { IfOk result (λ cost. cost ≡ spec.moves_cost asks.now parts.now) }
{
    let before = moves_before(alloc, asks, parts)?;
    let after = moves_after(alloc, asks, parts)?;
    let before = base_count(before.as_slice()) as u64;
    let after = base_count(after.as_slice()) as u64;
    sum(moved_count(parts) as u64, sum(before, after)?)
}

/// What an alternative costs.
pub fn cost_of(
    alloc: Global,
    constraints: &[OperandConstraint],
    alternative: u32,
    asks: &[Ask],
    parts: &[Part],
) -> Result<u64, Memory>
    requires { length asks.now ≤ 4 }
    ensures { IfOk result (λ cost.
        cost ≡ spec.moves_cost asks.now parts.now + spec.marks constraints.now alternative) }
{
    let moves = moves_cost(alloc, asks, parts)?;
    sum(moves, marks(constraints, alternative)?)
}
