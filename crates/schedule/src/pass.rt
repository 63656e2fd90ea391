//! The pass over a function.
ghost use Rattle.std.specs.Prelude.{◌≡◌, ◌+◌, ◌<◌, ◌≤◌, ◌^◌, List, length, IfOk};
ghost use Rattle.rtx_tree.specs.declared.function.Function.{Function};
ghost use Rattle.md_forms.specs.declared.form.Entry.{Entry};
ghost use Rattle.md_dfa.specs.Lawful.{AreLawful};
ghost use Rattle.md_dfa.specs.declared.pipeline.Pipeline.{Pipeline};
ghost use Rattle.law_function_kept.specs.Keeps.{Keeps};
ghost use Rattle.law_insn_replaced.specs.law_window_lines.ForLines.{MarksAreEmpty};
ghost use Rattle.law_window_replaced.specs.Natural.{RegistersAreNatural};
ghost use Rattle.new_insns.specs.Replaced.{window};
ghost use Rattle.schedule.specs.Schedule as spec;
ghost use Rattle.schedule.specs.Kept.{PlansKeep};
ghost use Rattle.schedule.specs.declared.plan.CycleOf.{CycleOf};
ghost use Rattle.schedule.specs.machine.Made.{IsDone};

use crate::compare::is_put;
use crate::plan::{CycleOf, Plan, plan_of};
use live_chain::LiveChain;
use md_desc::Description;
use md_dfa::Pipeline;
use plain_data::{Items, Memory};
use region_jobs::region_length;
use rtx_tree::{Function, MOST_SCHEDULED};
use std::alloc::Global;

/// Where the region ends that begins at a place. Places past 32 bits find no memory.
fn region_end(alloc: Global, chain: &mut LiveChain, place: u32) -> Result<u32, Memory>
    requires { place ≤ length chain.old.insns }
    ensures end { IfOk result (λ end. end ≡ spec.region_end chain.old place) }
    ensures within { IfOk result (λ end. end ≤ length chain.old.insns) }
    ensures from { IfOk result (λ end. place ≤ end) }
    ensures small { IfOk result (λ end. length chain.old.insns < 2 ^ 32) }
    ensures same { chain.new ≡ chain.old }
{
    let Ok(all) = u32::try_from(chain.len()) else {
        return Err(Memory);
    };
    let most = all.min(place.saturating_add(MOST_SCHEDULED));
    chain.move_gap(place)?;
    // with the gap in front of it the rest is lent
    let rest = chain.window(alloc, place, most)?;
    let length = region_length(rest.as_slice()) as u32;
    Ok(place + length)
}

/// The region from one place up to another in the order in which a pipeline takes it.
#[tactic(auto, using(crate::proofs::EndLaws::window_long))]
fn plan_between(
    alloc: Global,
    desc: &Description,
    pipe: &Pipeline,
    chain: &mut LiveChain,
    place: u32,
    end: u32,
) -> Result<Plan, Memory>
    requires lawful { AreLawful pipe.now }
    requires order { place < end }
    requires region { end ≡ spec.region_end chain.old place }
    requires within { end ≤ length chain.old.insns }
    ensures plan { IfOk result (spec.IsPlan desc.now pipe.now (window chain.old place end)) }
    ensures long { IfOk result (λ plan. place + length plan.insns ≡ end) }
    ensures same { chain.new ≡ chain.old }
{
    chain.move_gap(end)?;
    // with the gap at its end the region is lent
    let insns = chain.window(alloc, place, end)?;
    plan_of(alloc, desc, pipe, insns.as_slice())
}

/// Puts the region at a place in its new order, if it is equated with that, and appends its cycles.
/// Gives the place behind.
fn put_region(
    alloc: Global,
    chain: &mut LiveChain,
    place: u32,
    end: u32,
    plan: Plan,
    cycles: Items<CycleOf>,
) -> Result<Items<CycleOf>, Memory>
    requires order { place < end }
    requires within { end ≤ length chain.old.insns }
    requires few { length plan.insns < 2 ^ 32 }
    ensures { IfOk result (IsDone chain.old place end plan cycles chain.new) }
{
    if !is_put(alloc, chain, place, end, plan.insns.as_slice())? {
        return Ok(cycles);
    }
    let _ = chain.replace(alloc, place, end, plan.insns)?;
    cycles.append(plan.cycles)
}

/// The function with its regions in the order in which a pipeline takes them, one behind the other,
/// and the cycles of those that took their new order. Places past 32 bits find no memory.
///
/// # Errors
///
/// `Memory` where memory ran out.
pub fn schedule(
    alloc: Global,
    desc: &Description,
    pipe: &Pipeline,
    f: Function,
) -> Result<(Function, Items<CycleOf>), Memory>
    requires { AreLawful pipe.now }
    ensures scheduled { IfOk result (λ r. spec.Scheduled desc.now pipe.now f r.1 r.0) }

    // A function comes to one thing.
    ensures one { (forms : List Entry) (pipe : Pipeline) (f g h : Function) (a b : List CycleOf) →
        spec.Scheduled forms pipe f a g → spec.Scheduled forms pipe f b h → (a ≡ b) × (g ≡ h) }

    // In each region each dependence has its weight between the cycles, and no unit is taken twice in
    // a cycle.
    ensures kept { PlansKeep }

    // The function does what it did.
    ensures does { (forms : List Entry) (pipe : Pipeline) (f g : Function) (a : List CycleOf) →
        AreLawful pipe → MarksAreEmpty f → RegistersAreNatural f →
        spec.Scheduled forms pipe f a g → Keeps f g }
{
    let mut chain = LiveChain::of(alloc, f);
    let mut cycles = Items::new(alloc);
    let mut place: u32 = 0;
    while (place as usize) < chain.len() {
        let end = region_end(alloc, &mut chain, place)?;
        if end == place {
            place += 1;
        } else {
            let plan = plan_between(alloc, desc, pipe, &mut chain, place, end)?;
            cycles = put_region(alloc, &mut chain, place, end, plan, cycles)?;
            place = end;
        }
    }
    Ok((chain.into_function(alloc)?, cycles))
}
