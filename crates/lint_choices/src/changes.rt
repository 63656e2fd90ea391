//! The choices round one.
ghost use Rattle.std.specs.Prelude.{◌≡◌, ◌++◌, [], ◌∷◌, length, IfOk, OnOk};
ghost use Rattle.lint_choices.specs.Changes as spec;
ghost use Rattle.lint_choices.specs.declared.change.Change.TheVariants as change;
ghost use Rattle.lint_choices.specs.machine.Within.{filled};

use crate::change::{Change, Picked};
use plain_data::{Items, Memory};
use std::alloc::Global;

/// So many choices are looked at.
const MOST_LOOKED: usize = 2000;

type Changes = Items<Change>;

fn count_at(picked: &[Picked], operand: usize) -> usize
    ensures { result ≡ spec.count_at picked.now operand }
{
    match picked.get(operand) {
        Some(of_operand) => of_operand.count,
        None => 0,
    }
}

fn own_at(picked: &[Picked], operand: usize) -> usize
    ensures { result ≡ spec.own_at picked.now operand }
{
    match picked.get(operand) {
        Some(of_operand) => of_operand.own,
        None => 0,
    }
}

/// Appends a choice, where there is room for it.
#[tactic(auto, using(crate::proofs::FilledLaws::filled_one, crate::proofs::FilledLaws::filled_full))]
fn push(changes: &mut Changes, change: Change) -> Result<(), Memory>
    ensures { OnOk result (changes.new ≡ filled changes.old (change ∷ [])) }
{
    if changes.len() < MOST_LOOKED {
        changes.push(change)?;
    }
    Ok(())
}

fn push_one(
    picked: &[Picked],
    operand: usize,
    candidate: usize,
    changes: &mut Changes,
) -> Result<(), Memory>
    ensures { OnOk result (changes.new ≡ filled changes.old (spec.one_by picked.now operand candidate)) }
{
    if candidate == own_at(picked, operand) {
        return Ok(());
    }
    push(changes, Change::One { operand, candidate })
}

#[tactic(auto, using(crate::proofs::FilledLaws::filled_next, crate::proofs::FilledLaws::filled_ends))]
fn push_one_at(picked: &[Picked], operand: usize, changes: &mut Changes) -> Result<(), Memory>
    ensures { OnOk result (changes.new ≡ filled changes.old (spec.one_at picked.now operand)) }
{
    for candidate in 0..count_at(picked, operand) {
        push_one(picked, operand, candidate, changes)?;
    }
    Ok(())
}

#[tactic(auto, using(crate::proofs::FilledLaws::filled_next, crate::proofs::FilledLaws::filled_ends))]
fn push_ones(picked: &[Picked], changes: &mut Changes) -> Result<(), Memory>
    ensures { OnOk result (changes.new ≡ filled changes.old (spec.ones picked.now)) }
{
    for operand in 0..picked.len() {
        push_one_at(picked, operand, changes)?;
    }
    Ok(())
}

#[tactic(auto, using(crate::proofs::FilledLaws::filled_next, crate::proofs::FilledLaws::filled_ends))]
fn push_shared_with(second: usize, changes: &mut Changes) -> Result<(), Memory>
    ensures { OnOk result (changes.new ≡ filled changes.old (spec.shared_with second)) }
{
    for first in 0..second {
        push(changes, Change::Shared { first, second })?;
    }
    Ok(())
}

#[tactic(auto, using(crate::proofs::FilledLaws::filled_next, crate::proofs::FilledLaws::filled_ends))]
fn push_shares(operands: usize, changes: &mut Changes) -> Result<(), Memory>
    ensures { OnOk result (changes.new ≡ filled changes.old (spec.shares operands)) }
{
    for second in 0..operands {
        push_shared_with(second, changes)?;
    }
    Ok(())
}

/// Two operands, of which the first has a candidate.
#[derive(Clone, Copy)]
struct Pair {
    first: usize,
    candidate: usize,
    second: usize,
}

fn push_two(
    picked: &[Picked],
    pair: Pair,
    other: usize,
    changes: &mut Changes,
) -> Result<(), Memory>
    ensures { OnOk result (changes.new ≡ filled changes.old
        (spec.two_by picked.now pair.second pair.first pair.candidate other)) }
{
    if other == own_at(picked, pair.second) {
        return Ok(());
    }
    let change = Change::Two {
        first: pair.first,
        candidate: pair.candidate,
        second: pair.second,
        other,
    };
    push(changes, change)
}

#[tactic(auto, using(crate::proofs::FilledLaws::filled_next, crate::proofs::FilledLaws::filled_ends))]
fn push_each_two(picked: &[Picked], pair: Pair, changes: &mut Changes) -> Result<(), Memory>
    ensures { OnOk result (changes.new ≡ filled changes.old
        (spec.each_below (spec.count_at picked.now pair.second)
        (spec.two_by picked.now pair.second pair.first pair.candidate))) }
{
    for other in 0..count_at(picked, pair.second) {
        push_two(picked, pair, other, changes)?;
    }
    Ok(())
}

fn push_two_at(picked: &[Picked], pair: Pair, changes: &mut Changes) -> Result<(), Memory>
    ensures { OnOk result (changes.new ≡ filled changes.old
        (spec.two_at picked.now pair.second pair.first pair.candidate)) }
{
    if pair.candidate == own_at(picked, pair.first) {
        return Ok(());
    }
    push_each_two(picked, pair, changes)
}

#[tactic(auto, using(crate::proofs::FilledLaws::filled_next, crate::proofs::FilledLaws::filled_ends))]
fn push_two_for(
    picked: &[Picked],
    second: usize,
    first: usize,
    changes: &mut Changes,
) -> Result<(), Memory>
    ensures { OnOk result (changes.new ≡ filled changes.old (spec.two_for picked.now second first)) }
{
    for candidate in 0..count_at(picked, first) {
        let pair = Pair {
            first,
            candidate,
            second,
        };
        push_two_at(picked, pair, changes)?;
    }
    Ok(())
}

#[tactic(auto, using(crate::proofs::FilledLaws::filled_next, crate::proofs::FilledLaws::filled_ends))]
fn push_two_with(picked: &[Picked], second: usize, changes: &mut Changes) -> Result<(), Memory>
    ensures { OnOk result (changes.new ≡ filled changes.old (spec.two_with picked.now second)) }
{
    for first in 0..second {
        push_two_for(picked, second, first, changes)?;
    }
    Ok(())
}

#[tactic(auto, using(crate::proofs::FilledLaws::filled_next, crate::proofs::FilledLaws::filled_ends))]
fn push_twos(picked: &[Picked], changes: &mut Changes) -> Result<(), Memory>
    ensures { OnOk result (changes.new ≡ filled changes.old (spec.twos picked.now)) }
{
    for second in 0..picked.len() {
        push_two_with(picked, second, changes)?;
    }
    Ok(())
}

/// The choices where registers are shared, all or two.
#[tactic(auto, using(crate::proofs::FilledLaws::filled_both))]
fn push_all_shares(operands: usize, changes: &mut Changes) -> Result<(), Memory>
    ensures { OnOk result (changes.new ≡ filled changes.old
        (spec.shares operands ++ change.Every ∷ [])) }
{
    push_shares(operands, changes)?;
    push(changes, Change::Every)
}

/// The choice itself, and those where one operand has another candidate.
#[tactic(auto, using(crate::proofs::FilledLaws::filled_itself))]
fn first_changes(alloc: Global, picked: &[Picked]) -> Result<Changes, Memory>
    ensures { IfOk result (λ changes.
        changes ≡ filled [] (change.Itself ∷ spec.ones picked.now)) }
{
    let mut changes = Items::new(alloc);
    push(&mut changes, Change::Itself)?;
    push_ones(picked, &mut changes)?;
    Ok(changes)
}

/// The choices round one, in the order in which they are tried.
#[tactic(auto, using(crate::proofs::FilledLaws::round_filled))]
pub fn changes_round(alloc: Global, picked: &[Picked]) -> Result<Items<Change>, Memory>
    ensures { IfOk result (λ changes. changes ≡ spec.changes_round picked.now) }
{
    let mut changes = first_changes(alloc, picked)?;
    push_all_shares(picked.len(), &mut changes)?;
    push_twos(picked, &mut changes)?;
    Ok(changes)
}

/// The choices among which a first is looked for: registers are apart.
#[tactic(auto, using(crate::proofs::FilledLaws::searched_filled))]
pub fn changes_searched(alloc: Global, picked: &[Picked]) -> Result<Items<Change>, Memory>
    ensures { IfOk result (λ changes. changes ≡ spec.changes_searched picked.now) }
{
    let mut changes = first_changes(alloc, picked)?;
    push_twos(picked, &mut changes)?;
    Ok(changes)
}
