//! Why no instance of an alternative is reached.
ghost use Rattle.std.specs.Prelude.{◌≡◌, IfOk, slice_get};
ghost use Rattle.md_desc.specs.md_attr.Alternatives.{form_at};
ghost use Rattle.lint_made.specs.Made.{givers as givers_of};
ghost use Rattle.lint_tried.specs.Tried.{pattern_of as pattern_in};
ghost use Rattle.lint_tried.specs.machine.Views.{trial_of};
ghost use Rattle.lint_why.specs.Why as spec;

use crate::choice::{Stage, furthest};
use c_cond::{Cond, CondHead};
use form_needs::output_facts;
use lint_made::givers;
use lint_tried::{Candidates, Instance, Trial, accepted_form, instances_tried, pattern_of};
use md_desc::Description;
use md_forms::Form;
use plain_data::Memory;
use rtx_tree::{Mode, Name, Operands, Rtx};
use std::alloc::Global;

/// Why no instance of an alternative is reached.
#[derive(Drop)]
pub enum Why {
    /// The condition asks for no operand, and is 0.
    Condition,
    /// An operand has no candidate that its predicate and its constraint take.
    Operand {
        /// The operand's number.
        number: i64,
        /// Its predicate.
        predicate: Name,
        /// Its mode.
        mode: Mode,
    },
    /// No choice comes further than this.
    Choices(Stage),
    /// The form with this index is chosen for the first instance.
    Form {
        /// The index.
        form: u32,
    },
    /// This alternative of the form is chosen for the first instance.
    Alternative {
        /// The alternative.
        alternative: u32,
    },
    /// No form is chosen for the first instance.
    Nothing,
}

// ---- where there is an instance

/// What takes an instance.
fn taken_by(
    alloc: Global,
    description: &Description,
    form: u32,
    instance: &Instance,
) -> Result<Why, Memory>
    ensures { IfOk result (spec.IsTaken description.now form instance.now) }
{
    let facts = output_facts(alloc);
    match description.recog_out(alloc, &instance.insn.pattern, &facts)? {
        None => Ok(Why::Nothing),
        Some(chosen) if chosen.form == form => Ok(Why::Alternative {
            alternative: chosen.alternative,
        }),
        Some(chosen) => Ok(Why::Form { form: chosen.form }),
    }
}

// ---- where there is none

fn is_operand(head: &CondHead) -> bool
    ensures { result ≡ spec.is_operand head.now }
{
    matches!(head, CondHead::Operand(_))
}

/// Whether a condition asks for an operand.
fn asks_for_operand(condition: &Cond) -> bool
    ensures { result ≡ spec.asks_for_operand condition.now }
{
    condition.heads().iter().any(|head| is_operand(head))
}

/// Whether the condition asks for no operand, and is 0.
fn is_never(trial: &Trial) -> bool
    ensures { result ≡ spec.is_never (trial_of trial.now) }
{
    let nothing = Operands::new(trial.alloc);
    !asks_for_operand(&trial.says.condition) && !trial.is_met(&nothing)
}

fn is_nothing(candidates: &[Candidates], at: usize) -> bool
    ensures { result ≡ spec.is_nothing (slice_get candidates.now at) }
{
    match candidates.get(at) {
        Some(own) => own.len() == 0,
        None => false,
    }
}

fn without(alloc: Global, giver: &Rtx) -> Result<Why, Memory>
    ensures { IfOk result (λ why. why ≡ spec.without giver.now) }
{
    Ok(Why::Operand {
        number: giver.number,
        predicate: giver.name.copy(alloc)?,
        mode: giver.mode,
    })
}

/// The first operand that has no candidate.
fn first_without(
    alloc: Global,
    givers: &[Rtx],
    candidates: &[Candidates],
) -> Result<Option<Why>, Memory>
    ensures { IfOk result (λ why. why ≡ spec.without_from candidates.now 0 givers.now) }
{
    for (at, giver) in givers.iter().enumerate() {
        if is_nothing(candidates, at) {
            return Ok(Some(without(alloc, giver)?));
        }
    }
    Ok(None)
}

/// Why no choice of candidates makes an instance.
fn why_with(trial: &Trial, givers: &[Rtx], candidates: &[Candidates]) -> Result<Why, Memory>
    requires { givers.now ≡ givers_of trial.now.pattern.now }
    ensures { IfOk result (λ why. why ≡ spec.why_with (trial_of trial.now) candidates.now) }
{
    match first_without(trial.alloc, givers, candidates)? {
        Some(why) => Ok(why),
        None => Ok(Why::Choices(furthest(trial, givers, candidates)?)),
    }
}

/// Why an alternative has no instance.
#[tactic(auto, unfolding(crate::specs::Why::why_none))]
fn why_none(trial: &Trial, tested: &[i64]) -> Result<Why, Memory>
    ensures { IfOk result (λ why. why ≡ spec.why_none (trial_of trial.now) tested.now) }
{
    if is_never(trial) {
        return Ok(Why::Condition);
    }
    let givers = givers(trial.alloc, trial.pattern)?;
    let candidates = trial.candidates_of(givers.as_slice(), tested)?;
    let why = why_with(trial, givers.as_slice(), candidates.as_slice())?;
    Ok(why)
}

/// Why an alternative of what a form says has no instance.
fn why_by(
    alloc: Global,
    description: &Description,
    tested: &[i64],
    form: u32,
    alternative: u32,
    says: &Form,
) -> Result<Why, Memory>
    ensures { IfOk result (λ why. why ≡ spec.why_by description.now tested.now form alternative
        says.now (pattern_in says.now)) }
{
    match pattern_of(says) {
        Some(pattern) => {
            let trial = Trial {
                alloc,
                description,
                form,
                alternative,
                says,
                pattern,
            };
            why_none(&trial, tested)
        }
        None => Ok(Why::Nothing),
    }
}

// ---- either

/// Why an alternative of a form with an index has no instance.
fn why_form(
    alloc: Global,
    description: &Description,
    tested: &[i64],
    form: u32,
    alternative: u32,
) -> Result<Why, Memory>
    ensures { IfOk result (λ why. why ≡ spec.why_form description.now tested.now form alternative
        (form_at description.now form)) }
{
    match accepted_form(description.forms().as_slice(), form) {
        Some(says) => why_by(alloc, description, tested, form, alternative, says),
        None => Ok(Why::Nothing),
    }
}

/// Why no instance of an alternative of a form is reached, where none is, by the numbers in the
/// tests of the description: what takes the first instance, or why there is none.
#[tactic(auto, using(crate::proofs::WhyLaws::taken, crate::proofs::WhyLaws::none))]
pub fn why_unreached(
    alloc: Global,
    description: &Description,
    tested: &[i64],
    form: u32,
    alternative: u32,
) -> Result<Why, Memory>
    ensures { IfOk result (spec.IsWhy description.now tested.now form alternative) }
{
    let instances = instances_tried(alloc, description, tested, form, alternative)?;
    match instances.as_slice() {
        [first, ..] => {
            let why = taken_by(alloc, description, form, first)?;
            Ok(why)
        }
        [] => {
            let why = why_form(alloc, description, tested, form, alternative)?;
            Ok(why)
        }
    }
}
