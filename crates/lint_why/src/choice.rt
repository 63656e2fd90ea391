//! How far the operands of a choice come.
ghost use Rattle.std.specs.Prelude.{◌≡◌, IfOk, map};
ghost use Rattle.lint_made.specs.Made.{givers as givers_of};
ghost use Rattle.lint_tried.specs.machine.Views.{trial_of};
ghost use Rattle.lint_why.specs.declared.choice.Stage.TheVariants as stages;
ghost use Rattle.lint_why.specs.Choices as spec;

use lint_choices::{Change, Picked, changes_searched};
use lint_made::picks_in;
use lint_tried::{Candidates, Trial};
use md_match::instantiate;
use plain_data::{Items, Memory};
use rtx_tree::{Operands, Rtx};
use std::alloc::Global;

/// How far the operands of a choice come.
#[derive(Clone, Copy)]
pub enum Stage {
    /// They make no instruction.
    Unmade,
    /// A predicate doesn't accept its operand.
    Unaccepted,
    /// The condition is 0.
    Unmet,
    /// The constraints admit them one by one, and not together.
    Unfit,
    /// The instruction can't stand in a function.
    Unlawful,
}

impl Stage {
    /// Its place among the stages.
    pub fn rank(self) -> u8
        ensures { result ≡ spec.rank self }
    {
        match self {
            Stage::Unmade => 0,
            Stage::Unaccepted => 1,
            Stage::Unmet => 2,
            Stage::Unfit => 3,
            Stage::Unlawful => 4,
        }
    }
}

fn further(one: Stage, other: Stage) -> Stage
    ensures { result ≡ spec.further one other }
{
    if one.rank() < other.rank() {
        other
    } else {
        one
    }
}

/// The stage that some operands come to which make an instruction.
fn stage_made(trial: &Trial, givers: &[Rtx], operands: &Operands) -> Stage
    requires { givers.now ≡ givers_of trial.now.pattern.now }
    ensures { result ≡ spec.stage_made (trial_of trial.now) operands.now }
{
    if !trial.all_accepted(givers, operands) {
        Stage::Unaccepted
    } else if !trial.is_met(operands) {
        Stage::Unmet
    } else if !trial.is_usable(operands) {
        Stage::Unfit
    } else {
        Stage::Unlawful
    }
}

/// The stage that some operands come to.
#[tactic(auto, unfolding(crate::specs::Choices::stage_of))]
fn stage_of(trial: &Trial, givers: &[Rtx], operands: &Operands) -> Result<Stage, Memory>
    requires { givers.now ≡ givers_of trial.now.pattern.now }
    ensures { IfOk result (λ stage. stage ≡ spec.stage_of (trial_of trial.now) operands.now) }
{
    match instantiate(trial.alloc, trial.pattern, operands)? {
        Some(_) => Ok(stage_made(trial, givers, operands)),
        None => Ok(Stage::Unmade),
    }
}

/// The stage that a choice comes to which differs so from some picks.
fn stage_in(
    trial: &Trial,
    givers: &[Rtx],
    candidates: &[Candidates],
    picks: &[usize],
    change: Change,
) -> Result<Stage, Memory>
    requires { givers.now ≡ givers_of trial.now.pattern.now }
    ensures { IfOk result (λ stage.
        stage ≡ spec.stage_in (trial_of trial.now) candidates.now picks.now change) }
{
    let picks = picks_in(trial.alloc, change, picks)?;
    let operands = trial.operands_with(givers, candidates, change, picks.as_slice())?;
    stage_of(trial, givers, &operands)
}

/// The furthest of some choices.
fn furthest_among(
    trial: &Trial,
    givers: &[Rtx],
    candidates: &[Candidates],
    picks: &[usize],
    changes: &[Change],
) -> Result<Stage, Memory>
    requires { givers.now ≡ givers_of trial.now.pattern.now }
    ensures { IfOk result (λ stage. stage ≡ spec.furthest_among (trial_of trial.now)
        candidates.now picks.now stages.Unmade changes.now) }
{
    let mut best = Stage::Unmade;
    for change in changes {
        best = further(best, stage_in(trial, givers, candidates, picks, *change)?);
    }
    Ok(best)
}

/// The first of some candidates.
fn first_pick(own: &Candidates) -> usize
    ensures { result ≡ spec.first_pick own.now }
{
    let _ = own;
    0
}

/// Each operand has its first candidate.
fn first_picks(alloc: Global, candidates: &[Candidates]) -> Result<Items<usize>, Memory>
    ensures { IfOk result (λ picks. picks ≡ map spec.first_pick candidates.now) }
{
    let mut picks = Items::new(alloc);
    for own in candidates {
        picks.push(first_pick(own))?;
    }
    Ok(picks)
}

fn first_picked(own: &Candidates) -> Picked
    ensures { result ≡ spec.first_picked own.now }
{
    Picked {
        count: own.len(),
        own: 0,
    }
}

/// How many candidates each operand has, of which it has the first.
fn all_picked(alloc: Global, candidates: &[Candidates]) -> Result<Items<Picked>, Memory>
    ensures { IfOk result (λ picked. picked ≡ map spec.first_picked candidates.now) }
{
    let mut picked = Items::new(alloc);
    for own in candidates {
        picked.push(first_picked(own))?;
    }
    Ok(picked)
}

/// The furthest stage that a choice comes to, of those among which a first instance is looked for.
#[tactic(auto, unfolding(crate::specs::Choices::furthest))]
pub fn furthest(trial: &Trial, givers: &[Rtx], candidates: &[Candidates]) -> Result<Stage, Memory>
    requires { givers.now ≡ givers_of trial.now.pattern.now }
    ensures { IfOk result (λ stage.
        stage ≡ spec.furthest (trial_of trial.now) candidates.now) }
{
    let picks = first_picks(trial.alloc, candidates)?;
    let picked = all_picked(trial.alloc, candidates)?;
    let changes = changes_searched(trial.alloc, picked.as_slice())?;
    furthest_among(
        trial,
        givers,
        candidates,
        picks.as_slice(),
        changes.as_slice(),
    )
}
