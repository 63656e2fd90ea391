//! Ways, and two of them as one.
ghost use Rattle.std.specs.Prelude.{◌≡◌, ◌+◌, ◌*◌, ◌++◌, nat_le, IfOk, OnOk};
ghost use Rattle.rtx_tree.specs.Limit as limits;
ghost use Rattle.dfa_ways.specs.Ways as spec;

use plain_data::{Items, Memory};
use rtx_tree::{MOST_CYCLES, MOST_WAYS};
use std::alloc::Global;

/// The units that are taken in each cycle, from the first on: unit u is bit u.
pub type Way = Items<u64>;

/// Some ways, in order.
pub type Ways = Items<Way>;

/// How two ways are made one.
#[derive(Clone, Copy)]
pub enum Joint {
    /// One behind the other.
    Behind,
    /// Both from the same cycle on.
    AtOnce,
}

/// Whether there is room for so many cycles behind so many.
fn is_short(first: usize, second: usize) -> bool
    ensures { result ≡ nat_le (first + second) limits.most_cycles }
{
    first <= MOST_CYCLES && second <= MOST_CYCLES - first
}

/// Whether there is room for so many ways beside so many.
pub fn are_few(first: usize, second: usize) -> bool
    ensures { result ≡ nat_le (first + second) limits.most_ways }
{
    first <= MOST_WAYS && second <= MOST_WAYS - first
}

/// Whether there is room for so many ways of each of so many.
pub fn are_few_joined(first: usize, second: usize) -> bool
    ensures { result ≡ nat_le (first * second) limits.most_ways }
{
    match first.checked_mul(second) {
        Some(count) => count <= MOST_WAYS,
        None => false,
    }
}

fn push_all(way: &mut Way, more: &[u64]) -> Result<(), Memory>
    ensures { OnOk result (way.new ≡ way.old ++ more.now) }
{
    for units in more {
        way.push(*units)?;
    }
    Ok(())
}

/// Two ways from the same cycle on, if no unit is taken twice.
#[tactic(auto, using(crate::proofs::WayLaws::met, crate::proofs::WayLaws::missed, crate::proofs::WayLaws::at_once_ends))]
fn at_once(alloc: Global, first: &[u64], second: &[u64]) -> Result<Option<Way>, Memory>
    ensures { IfOk result (λ way. way ≡ spec.at_once first.now second.now) }
{
    let mut both = Items::new(alloc);
    let common = first.len().min(second.len());
    for at in 0..common {
        if first[at] & second[at] != 0 {
            return Ok(None);
        }
        both.push(first[at] | second[at])?;
    }
    push_all(&mut both, &first[common..])?;
    push_all(&mut both, &second[common..])?;
    Ok(Some(both))
}

/// A way behind another, if both are short enough.
fn in_turn(alloc: Global, first: &[u64], second: &[u64]) -> Result<Option<Way>, Memory>
    ensures { IfOk result (λ way. way ≡ spec.in_turn first.now second.now) }
{
    if !is_short(first.len(), second.len()) {
        return Ok(None);
    }
    let mut both = Items::new(alloc);
    push_all(&mut both, first)?;
    push_all(&mut both, second)?;
    Ok(Some(both))
}

/// Two ways as one, if there is such a way.
pub fn joined(
    alloc: Global,
    how: Joint,
    first: &[u64],
    second: &[u64],
) -> Result<Option<Way>, Memory>
    ensures { IfOk result (λ way. way ≡ spec.joined how first.now second.now) }
{
    match how {
        Joint::Behind => in_turn(alloc, first, second),
        Joint::AtOnce => at_once(alloc, first, second),
    }
}
