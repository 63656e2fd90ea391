//! The instances of an alternative.
ghost use Rattle.std.specs.Prelude.{◌≡◌, ◌<◌, [], Some, IfOk, OnOk, length, slice_index_or};
ghost use Rattle.std.specs.Option.{option_copied};
ghost use Rattle.std.specs.List.{list_any};
ghost use Rattle.rtx_tree.specs.Limit.{most_tried};
ghost use Rattle.md_desc.specs.md_attr.Alternatives.{accepted, form_at};
ghost use Rattle.lint_made.specs.Made.{givers as givers_of};
ghost use Rattle.lint_tried.specs.Instance.{instance_of};
ghost use Rattle.lint_tried.specs.Offered.{candidates_of};
ghost use Rattle.lint_tried.specs.Tried as spec;
ghost use Rattle.lint_tried.specs.machine.Views.{trial_of};

use crate::instance::Instance;
use crate::offered::Candidates;
use crate::trial::Trial;
use c_eval::same_tree;
use lint_choices::{Change, Picked, changes_round, changes_searched};
use lint_made::{givers, picks_in};
use md_desc::Description;
use md_forms::{Entry, Form, FormHead};
use plain_data::{Items, Memory};
use rtx_tree::{MOST_TRIED, Rtx};
use std::alloc::Global;

/// The first of some candidates.
fn first_pick(own: &Candidates) -> usize
    ensures { result ≡ spec.first_pick own.now }
{
    let _ = own;
    0
}

/// Each operand has its first candidate.
#[tactic(auto, using(lint_choices::proofs::PushedLaws::mapped_next, lint_choices::proofs::PushedLaws::pushed_ends))]
fn first_picks(alloc: Global, candidates: &[Candidates]) -> Result<Items<usize>, Memory>
    ensures { IfOk result (λ picks. picks ≡ spec.first_picks candidates.now) }
{
    let mut picks = Items::new(alloc);
    for own in candidates {
        picks.push(first_pick(own))?;
    }
    Ok(picks)
}

fn pick_at(picks: &[usize], at: usize) -> usize
    ensures { result ≡ slice_index_or picks.now at 0 }
{
    match picks.get(at) {
        Some(pick) => *pick,
        None => 0,
    }
}

/// How many candidates each operand has, and which is picked.
#[tactic(auto, using(crate::proofs::NextLaws::picked_next, lint_choices::proofs::PushedLaws::pushed_ends))]
fn picked(
    alloc: Global,
    candidates: &[Candidates],
    picks: &[usize],
) -> Result<Items<Picked>, Memory>
    ensures { IfOk result (λ picked. picked ≡ spec.picked_from picks.now 0 candidates.now) }
{
    let mut picked = Items::new(alloc);
    for (at, own) in candidates.iter().enumerate() {
        picked.push(Picked {
            count: own.len(),
            own: pick_at(picks, at),
        })?;
    }
    Ok(picked)
}

fn is_among(instance: &Instance, tried: &[Instance]) -> bool
    ensures { result ≡ list_any (spec.is_like instance.now) tried.now }
{
    for other in tried {
        if same_tree(&instance.insn.pattern, &other.insn.pattern) {
            return true;
        }
    }
    false
}

/// Appends an instance, unless one before it has its pattern.
#[tactic(auto, using(crate::proofs::RoomLaws::like_left, crate::proofs::RoomLaws::unlike_put))]
fn push_unlike(instance: Instance, tried: &mut Items<Instance>) -> Result<(), Memory>
    requires { length tried.old < most_tried }
    ensures { OnOk result (tried.new ≡ spec.with_instance tried.old (Some instance)) }
{
    if is_among(&instance, tried.as_slice()) {
        return Ok(());
    }
    tried.push(instance)
}

impl Trial<'_> {
    /// What the first of some choices that makes an instance picks.
    fn base_among(
        &self,
        givers: &[Rtx],
        candidates: &[Candidates],
        picks: &[usize],
        changes: &[Change],
    ) -> Result<Option<Items<usize>>, Memory>
        requires { givers.now ≡ givers_of self.now.pattern.now }
        ensures { IfOk result (λ base. base ≡
            spec.base_among (trial_of self.now) candidates.now picks.now changes.now) }
    {
        for change in changes {
            if self
                .instance_of(givers, candidates, picks, *change)?
                .is_some()
            {
                return Ok(Some(picks_in(self.alloc, *change, picks)?));
            }
        }
        Ok(None)
    }

    /// What the first choice that makes an instance picks.
    fn base_of(
        &self,
        givers: &[Rtx],
        candidates: &[Candidates],
    ) -> Result<Option<Items<usize>>, Memory>
        requires { givers.now ≡ givers_of self.now.pattern.now }
        ensures { IfOk result (λ base. base ≡
            spec.base_of (trial_of self.now) candidates.now) }
    {
        let picks = first_picks(self.alloc, candidates)?;
        let picked = picked(self.alloc, candidates, picks.as_slice())?;
        let changes = changes_searched(self.alloc, picked.as_slice())?;
        self.base_among(givers, candidates, picks.as_slice(), changes.as_slice())
    }

    /// Appends the instance of a choice, where there is room.
    #[tactic(auto, using(crate::proofs::RoomLaws::no_room))]
    fn push_instance(
        &self,
        givers: &[Rtx],
        candidates: &[Candidates],
        picks: &[usize],
        change: Change,
        tried: &mut Items<Instance>,
    ) -> Result<(), Memory>
        requires { givers.now ≡ givers_of self.now.pattern.now }
        ensures { OnOk result (tried.new ≡ spec.with_instance tried.old
            (instance_of (trial_of self.now) candidates.now picks.now change)) }
    {
        if tried.len() >= MOST_TRIED {
            return Ok(());
        }
        match self.instance_of(givers, candidates, picks, change)? {
            Some(instance) => push_unlike(instance, tried),
            None => Ok(()),
        }
    }

    /// Those of the choices round one.
    fn tried_behind(
        &self,
        givers: &[Rtx],
        candidates: &[Candidates],
        picks: &[usize],
        changes: &[Change],
    ) -> Result<Items<Instance>, Memory>
        requires { givers.now ≡ givers_of self.now.pattern.now }
        ensures { IfOk result (λ tried. tried ≡
            spec.tried_behind (trial_of self.now) candidates.now picks.now [] changes.now) }
    {
        let mut tried = Items::new(self.alloc);
        for change in changes {
            self.push_instance(givers, candidates, picks, *change, &mut tried)?;
        }
        Ok(tried)
    }

    fn tried_round(
        &self,
        givers: &[Rtx],
        candidates: &[Candidates],
        base: Option<Items<usize>>,
    ) -> Result<Items<Instance>, Memory>
        requires { givers.now ≡ givers_of self.now.pattern.now }
        ensures { IfOk result (λ tried. tried ≡
            spec.tried_round (trial_of self.now) candidates.now base) }
    {
        let Some(picks) = base else {
            return Ok(Items::new(self.alloc));
        };
        let picked = picked(self.alloc, candidates, picks.as_slice())?;
        let changes = changes_round(self.alloc, picked.as_slice())?;
        self.tried_behind(givers, candidates, picks.as_slice(), changes.as_slice())
    }

    /// The instances of the alternative.
    fn instances(&self, tested: &[i64]) -> Result<Items<Instance>, Memory>
        ensures { IfOk result (λ tried. tried ≡ spec.tried_with (trial_of self.now)
            (candidates_of (trial_of self.now) tested.now)) }
    {
        let givers = givers(self.alloc, self.pattern)?;
        let candidates = self.candidates_of(givers.as_slice(), tested)?;
        let base = self.base_of(givers.as_slice(), candidates.as_slice())?;
        let tried = self.tried_round(givers.as_slice(), candidates.as_slice(), base)?;
        Ok(tried)
    }
}

/// The pattern of a form that defines an instruction, or splits one.
pub fn pattern_of(form: &Form) -> Option<&Rtx>
    ensures { option_copied result ≡ spec.pattern_of form.entry.now }
{
    match form.head {
        FormHead::Insn | FormHead::InsnAndSplit | FormHead::Split => {
            form.patterns.as_slice().get(0)
        }
        _ => None,
    }
}

fn says(entry: &Entry) -> Option<&Form>
    ensures { option_copied result ≡ accepted entry.entry.now }
{
    match &entry.form {
        Ok(form) => Some(form),
        Err(_) => None,
    }
}

/// What the accepted form with an index says.
pub fn accepted_form(forms: &[Entry], form: u32) -> Option<&Form>
    ensures { option_copied result ≡ form_at forms.entry.now form }
{
    match forms.get(form as usize) {
        Some(entry) => says(entry),
        None => None,
    }
}

/// The instances of what a form says.
fn tried_by(
    alloc: Global,
    description: &Description,
    tested: &[i64],
    form: u32,
    alternative: u32,
    says: &Form,
) -> Result<Items<Instance>, Memory>
    ensures { IfOk result (λ tried. tried ≡
        spec.tried_by description.now tested.now form alternative says.now
        (spec.pattern_of says.now)) }
{
    match pattern_of(says) {
        Some(pattern) => {
            let trial = Trial {
                alloc,
                description,
                form,
                alternative,
                says,
                pattern,
            };
            trial.instances(tested)
        }
        None => Ok(Items::new(alloc)),
    }
}

/// The instances that are tried of an alternative of a form, by the numbers in the tests of the
/// description, which [`tested_numbers`] gives.
///
/// [`tested_numbers`]: crate::tested_numbers
pub fn instances_tried(
    alloc: Global,
    description: &Description,
    tested: &[i64],
    form: u32,
    alternative: u32,
) -> Result<Items<Instance>, Memory>
    ensures { IfOk result (λ tried. tried ≡
        spec.instances_tried description.now tested.now form alternative) }
{
    match accepted_form(description.forms().as_slice(), form) {
        Some(says) => tried_by(alloc, description, tested, form, alternative, says),
        None => Ok(Items::new(alloc)),
    }
}
