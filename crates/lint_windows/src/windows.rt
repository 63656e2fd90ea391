//! The windows of a peephole that are tried.
ghost use Rattle.std.specs.Prelude.{◌≡◌, [], IfOk, OnOk, map};
ghost use Rattle.std.specs.List.{list_all};
ghost use Rattle.rtx_tree.specs.declared.function.Kind.TheVariants as kind;
ghost use Rattle.rtl_func.specs.Kinds.{kinds_agree as are_agreed};
ghost use Rattle.md_desc.specs.md_recog.Recog.{is_peephole as is_window, window_of};
ghost use Rattle.lint_made.specs.Made.{givers as givers_of};
ghost use Rattle.lint_tried.specs.machine.Views.{trial_of};
ghost use Rattle.lint_tried.specs.Tried.{first_picks as picks_first};
ghost use Rattle.lint_windows.specs.Windows as spec;

use lint_choices::{Change, Picked, changes_round};
use lint_made::{givers, picks_in};
use lint_tried::{Candidates, Trial, accepted_form};
use md_desc::Description;
use md_forms::{Form, FormHead};
use md_match::instantiate;
use plain_data::{Items, Memory};
use rtl_func::kinds_agree;
use rtx_tree::{Code, Kids, Kind, MOST_TRIED, Mode, Operands, Rtx};
use std::alloc::Global;

/// Windows, in order.
pub type Windows = Items<Kids>;

// ---- the window of a choice

fn are_plain(patterns: &[Rtx]) -> bool
    ensures { result ≡ list_all (are_agreed kind.Plain) patterns.now }
{
    for pattern in patterns {
        if !kinds_agree(Kind::Plain, pattern) {
            return false;
        }
    }
    true
}

/// The instructions of a window, where each is a plain one.
fn plain_kids(window: Option<Rtx>) -> Option<Kids>
    ensures { result ≡ spec.plain_kids window }
{
    match window {
        None => None,
        Some(window) => {
            if are_plain(window.kids.as_slice()) {
                Some(window.kids)
            } else {
                None
            }
        }
    }
}

/// The window of operands that the predicates accept.
#[tactic(auto, unfolding(crate::specs::Windows::window_with))]
fn window_with(trial: &Trial, givers: &[Rtx], operands: &Operands) -> Result<Option<Kids>, Memory>
    requires { givers.now ≡ givers_of trial.now.pattern.now }
    ensures { IfOk result (λ window.
        window ≡ spec.window_with (trial_of trial.now) operands.now) }
{
    if !trial.all_accepted(givers, operands) {
        return Ok(None);
    }
    let window = instantiate(trial.alloc, trial.pattern, operands)?;
    Ok(plain_kids(window))
}

/// The window of a choice that differs so from some picks.
fn window_in(
    trial: &Trial,
    givers: &[Rtx],
    candidates: &[Candidates],
    picks: &[usize],
    change: Change,
) -> Result<Option<Kids>, Memory>
    requires { givers.now ≡ givers_of trial.now.pattern.now }
    ensures { IfOk result (λ window.
        window ≡ spec.window_in (trial_of trial.now) candidates.now picks.now change) }
{
    let picks = picks_in(trial.alloc, change, picks)?;
    let operands = trial.operands_with(givers, candidates, change, picks.as_slice())?;
    window_with(trial, givers, &operands)
}

// ---- the windows of choices

/// Appends a window, where there is one and room for it.
#[tactic(auto, using(crate::proofs::RoomLaws::no_room, crate::proofs::RoomLaws::has_room))]
fn push_window(window: Option<Kids>, windows: &mut Windows) -> Result<(), Memory>
    ensures { OnOk result (windows.new ≡ spec.with_window windows.old window) }
{
    let Some(window) = window else {
        return Ok(());
    };
    if windows.len() >= MOST_TRIED {
        return Ok(());
    }
    windows.push(window)
}

fn windows_behind(
    trial: &Trial,
    givers: &[Rtx],
    candidates: &[Candidates],
    picks: &[usize],
    changes: &[Change],
) -> Result<Windows, Memory>
    requires { givers.now ≡ givers_of trial.now.pattern.now }
    ensures { IfOk result (λ windows. windows ≡
        spec.windows_behind (trial_of trial.now) candidates.now picks.now [] changes.now) }
{
    let mut windows = Items::new(trial.alloc);
    for change in changes {
        let window = window_in(trial, givers, candidates, picks, *change)?;
        push_window(window, &mut windows)?;
    }
    Ok(windows)
}

/// Each operand has its first candidate.
#[tactic(auto, using(lint_choices::proofs::PushedLaws::mapped_next, lint_choices::proofs::PushedLaws::pushed_ends))]
fn first_picks(alloc: Global, candidates: &[Candidates]) -> Result<Items<usize>, Memory>
    ensures { IfOk result (λ picks. picks ≡ picks_first candidates.now) }
{
    let mut picks = Items::new(alloc);
    for own in candidates {
        picks.push(0)?;
    }
    Ok(picks)
}

/// How many candidates each operand has, of which it has the first.
#[tactic(auto, using(lint_choices::proofs::PushedLaws::mapped_next, lint_choices::proofs::PushedLaws::pushed_ends))]
fn first_picked(alloc: Global, candidates: &[Candidates]) -> Result<Items<Picked>, Memory>
    ensures { IfOk result (λ picked. picked ≡ map spec.first_picked candidates.now) }
{
    let mut picked = Items::new(alloc);
    for own in candidates {
        picked.push(Picked {
            count: own.len(),
            own: 0,
        })?;
    }
    Ok(picked)
}

/// The windows of the choices round that of each operand's first candidate.
#[tactic(auto, unfolding(crate::specs::Windows::windows_with))]
fn windows_with(trial: &Trial, givers: &[Rtx], candidates: &[Candidates]) -> Result<Windows, Memory>
    requires { givers.now ≡ givers_of trial.now.pattern.now }
    ensures { IfOk result (λ windows.
        windows ≡ spec.windows_with (trial_of trial.now) candidates.now) }
{
    let picks = first_picks(trial.alloc, candidates)?;
    let picked = first_picked(trial.alloc, candidates)?;
    let changes = changes_round(trial.alloc, picked.as_slice())?;
    windows_behind(
        trial,
        givers,
        candidates,
        picks.as_slice(),
        changes.as_slice(),
    )
}

#[tactic(auto, unfolding(crate::specs::Windows::windows_of))]
fn windows_of(trial: &Trial) -> Result<Windows, Memory>
    ensures { IfOk result (λ windows. windows ≡ spec.windows_of (trial_of trial.now)) }
{
    let givers = givers(trial.alloc, trial.pattern)?;
    let candidates = trial.candidates_of(givers.as_slice(), &[])?;
    let windows = windows_with(trial, givers.as_slice(), candidates.as_slice())?;
    Ok(windows)
}

// ---- the windows of a form

/// The instructions of a window.
fn insns_among(alloc: Global, patterns: &[Rtx]) -> Result<Kids, Memory>
    ensures { IfOk result (λ insns. insns ≡ window_of patterns.now) }
{
    let mut insns = Items::new(alloc);
    for pattern in patterns {
        if !matches!(pattern.code, Code::MatchScratch) {
            insns.push(pattern.copy(alloc)?)?;
        }
    }
    Ok(insns)
}

/// The instructions of a window as one pattern.
fn window_pattern(alloc: Global, form: &Form) -> Result<Rtx, Memory>
    ensures { IfOk result (λ window. window ≡ spec.window_pattern form.now) }
{
    let kids = insns_among(alloc, form.patterns.as_slice())?;
    Ok(Rtx::of_kids(alloc, Code::Parallel, Mode::Void, kids))
}

/// The windows of what a peephole says.
#[tactic(auto, using(crate::proofs::MadeLaws::by_pattern))]
fn windows_by(
    alloc: Global,
    description: &Description,
    form: u32,
    says: &Form,
) -> Result<Windows, Memory>
    ensures { IfOk result (λ windows.
        windows ≡ spec.windows_by description.now form says.now) }
{
    let pattern = window_pattern(alloc, says)?;
    let trial = Trial {
        alloc,
        description,
        form,
        alternative: 0,
        says,
        pattern: &pattern,
    };
    let windows = windows_of(&trial)?;
    Ok(windows)
}

fn is_peephole(form: &Form) -> bool
    ensures { result ≡ is_window form.now.head }
{
    matches!(form.head, FormHead::Peephole2)
}

/// The windows of a peephole that are tried; a form that is none has none.
pub fn windows_tried(alloc: Global, description: &Description, form: u32) -> Result<Windows, Memory>
    ensures { IfOk result (λ windows. windows ≡ spec.windows_tried description.now form) }
{
    match accepted_form(description.forms().as_slice(), form) {
        Some(says) if is_peephole(says) => windows_by(alloc, description, form, says),
        _ => Ok(Items::new(alloc)),
    }
}
