//! The best alternative.
ghost use Rattle.std.specs.Prelude.{◌≡◌, ◌↔◌, Some, None, IfOk, IfSome};
ghost use Rattle.reload_fit.specs.md_desc.md_attr.Alternatives.{alternatives_of};
ghost use Rattle.reload_choice.specs.declared.given.Plan.{Plan};
ghost use Rattle.reload_choice.specs.Choice as spec;
ghost use Rattle.reload_choice.specs.Sound.{IsSoundPlan};
ghost use Rattle.reload_fit.specs.Fitting as fit;
ghost use Rattle.reload_choice.specs.machine.Asked as machine;
ghost use Rattle.reload_choice.specs.machine.Asked.{plan_in, plan_of, planned_in};
ghost use Rattle.reload_choice.specs.machine.Least as least;

use crate::cost::cost_of;
use crate::given::{Given, Plan};
use crate::movable::{formed_of, is_reached};
use md_desc::Description;
use md_forms::{Entry, OperandConstraint};
use plain_data::{Items, Memory};
use reload_fit::Asked;
use reload_moves::{Fitting, Part, asks_of, parts_of};
use std::alloc::Global;

/// The plan of an alternative, by what is moved in it, where it is reachable.
fn planned(
    asked: &Asked,
    given: &Given,
    fits: &[Fitting],
    formed: &[bool],
    parts: Items<Part>,
) -> Result<Option<Plan>, Memory>
    ensures { IfOk result (λ plan.
        plan ≡ planned_in asked.now given.now fits.now formed.now parts) }
{
    let asks = asks_of(asked.alloc, parts.as_slice())?;
    if asks.len() > 4 || !is_reached(asked, given, fits, formed, parts.as_slice())? {
        return Ok(None);
    }
    let cost = cost_of(
        asked.alloc,
        asked.constraints,
        asked.alternative,
        asks.as_slice(),
        parts.as_slice(),
    )?;
    Ok(Some(Plan { cost, parts }))
}

/// The plan of an alternative that is enabled, where it is reachable.
fn plan_by(asked: &Asked, given: &Given, formed: &[bool]) -> Result<Option<Plan>, Memory>
    ensures { IfOk result (λ plan. plan ≡ plan_in asked.now given.now formed.now) }
{
    let fits = asked.fittings()?;
    let parts = parts_of(asked.alloc, fits.as_slice())?;
    planned(asked, given, fits.as_slice(), formed, parts)
}

/// A form of a description, and an instruction that it matches.
#[derive(Drop)]
struct Choice<'a> {
    alloc: Global,
    desc: &'a Description,
    form: u32,
    constraints: &'a [OperandConstraint],
    given: &'a Given,
    formed: &'a [bool],
}

impl Choice<'_> {
    fn plan_in(&self, alternative: u32) -> Result<Option<Plan>, Memory>
        ensures { IfOk result (λ plan.
            plan ≡ plan_of self.now.desc.now self.now.form self.now.constraints.now
            self.now.given.now self.now.formed.now alternative) }
    {
        let asked = Asked {
            alloc: self.alloc,
            desc: self.desc,
            form: self.form,
            constraints: self.constraints,
            alternative,
            operands: self.given.operands.as_slice(),
        };
        plan_by(&asked, self.given, self.formed)
    }

    fn plan_at(&self, alternative: u32) -> Result<Option<Plan>, Memory>
        ensures { IfOk result (λ plan.
            plan ≡ spec.plan_among self.now.desc.now self.now.form self.now.constraints.now
            self.now.given.now self.now.formed.now alternative) }
    {
        if self.desc.enabled(self.form, alternative) {
            self.plan_in(alternative)
        } else {
            Ok(None)
        }
    }

    /// The best plan. Behind one that costs nothing none is looked for. More alternatives than have
    /// a number are wanted as memory is.
    #[tactic(auto, using(crate::proofs::LeastLaws::keeps_first, crate::proofs::LeastLaws::keeps_whole))]
    fn best(&self) -> Result<Option<Plan>, Memory>
        ensures { IfOk result (λ plan.
            plan ≡ least.best_upto (spec.plan_among self.now.desc.now self.now.form
            self.now.constraints.now self.now.given.now self.now.formed.now)
            (alternatives_of self.now.desc.now self.now.form)) }
    {
        let mut best = None;
        let mut alternative: u32 = 0;
        'alternatives: while self.desc.has_alternative(self.form, alternative) {
            let plan = self.plan_at(alternative)?;
            best = better(best, plan);
            if is_free(&best) {
                return Ok(best);
            }
            let Some(next) = alternative.checked_add(1) else {
                return Err(Memory);
            };
            alternative = next;
        }
        Ok(best)
    }
}

/// The cheaper of two plans; of two that cost the same the first.
fn better(best: Option<Plan>, plan: Option<Plan>) -> Option<Plan>
    ensures { result ≡ least.better best plan }
{
    match best {
        None => plan,
        Some(best) => match plan {
            None => Some(best),
            Some(plan) => Some(if plan.cost < best.cost { plan } else { best }),
        },
    }
}

/// Whether a plan costs nothing, so that no later one is taken in its place.
fn is_free(best: &Option<Plan>) -> bool
    ensures { result ≡ least.is_free best.now }
{
    match best {
        Some(plan) => plan.cost == 0,
        None => false,
    }
}

fn constraints_in(entry: &Entry) -> &[OperandConstraint]
    ensures { result.now ≡ machine.constraints_in entry.now }
{
    match &entry.form {
        Ok(form) => form.constraints.as_slice(),
        Err(_) => &[],
    }
}

fn constraints_at(desc: &Description, form: u32) -> &[OperandConstraint]
    ensures { result.now ≡ fit.constraints_of desc.now form }
{
    match desc.forms().as_slice().get(form as usize) {
        Some(entry) => constraints_in(entry),
        None => &[],
    }
}

/// The plan of the alternative of a form that costs least, of several such the one with the lowest
/// number, or `None` exactly where no enabled alternative is reachable.
pub fn best_plan(
    alloc: Global,
    desc: &Description,
    form: u32,
    given: &Given,
) -> Result<Option<Plan>, Memory>
    ensures best { IfOk result (λ r. (plan : Plan) →
        (r ≡ Some plan) ↔ spec.IsChosen desc.now form given.now plan) }
    ensures none { IfOk result (λ r. r ≡ None → spec.NoneReaches desc.now form given.now) }
    ensures sound { IfOk result (λ r. IfSome r (IsSoundPlan given.now)) }
{
    let formed = formed_of(alloc, given)?;
    let choice = Choice {
        alloc,
        desc,
        form,
        constraints: constraints_at(desc, form),
        given,
        formed: formed.as_slice(),
    };
    choice.best()
}
