//! The instructions of a region in their new order.
ghost use Rattle.std.specs.Prelude.{◌≡◌, ◌≤◌, ◌<◌, All, length, IfOk};
ghost use Rattle.rtx_tree.specs.Limit.{most_scheduled};
ghost use Rattle.law_order.specs.Ordered.{in_order};
ghost use Rattle.md_dfa.specs.Lawful.{AreLawful};
ghost use Rattle.schedule.specs.Schedule as spec;

use crate::jobs::jobs_of;
use job_order::{cycles_of, order_of};
use md_desc::Description;
use md_dfa::Pipeline;
use plain_data::{Items, Memory};
use rtx_tree::{Insn, Insns};
use std::alloc::Global;

/// The cycle of an instruction.
#[derive(Clone, Copy)]
pub struct CycleOf {
    /// The instruction's uid.
    pub uid: u32,
    /// The cycle in which it begins, from the first of its region on.
    pub cycle: usize,
}

/// Instructions in an order, and the cycle of each.
#[derive(Drop)]
pub struct Plan {
    /// The instructions.
    pub insns: Insns,
    /// Their cycles.
    pub cycles: Items<CycleOf>,
}

/// The instructions at some places.
fn insns_in(alloc: Global, insns: &[Insn], order: &[usize]) -> Result<Insns, Memory>
    requires { All (λ place. place < length insns.now) order.now }
    ensures { IfOk result (λ new. new ≡ in_order insns.now order.now) }
{
    let mut new = Items::new(alloc);
    for place in order {
        new.push(insns[*place].copy(alloc)?)?;
    }
    Ok(new)
}

/// The cycles of the instructions at some places.
fn cycles_in(
    alloc: Global,
    insns: &[Insn],
    cycles: &[usize],
    order: &[usize],
) -> Result<Items<CycleOf>, Memory>
    requires long { length cycles.now ≡ length insns.now }
    requires within { All (λ place. place < length insns.now) order.now }
    ensures { IfOk result (λ told.
        told ≡ in_order (spec.with_cycles insns.now cycles.now) order.now) }
{
    let mut told = Items::new(alloc);
    for place in order {
        told.push(CycleOf {
            uid: insns[*place].uid,
            cycle: cycles[*place],
        })?;
    }
    Ok(told)
}

/// The instructions of a region in the order in which a pipeline takes them.
#[tactic(auto, using(crate::proofs::PlanLaws::cycles_long, crate::proofs::PlanLaws::order_within, crate::proofs::PlanLaws::is_plan))]
pub fn plan_of(
    alloc: Global,
    desc: &Description,
    pipe: &Pipeline,
    insns: &[Insn],
) -> Result<Plan, Memory>
    requires lawful { AreLawful pipe.now }
    requires few { length insns.now ≤ most_scheduled }
    ensures plan { IfOk result (spec.IsPlan desc.now pipe.now insns.now) }
    ensures long { IfOk result (λ plan. length plan.insns ≡ length insns.now) }
{
    let jobs = jobs_of(alloc, desc, pipe, insns)?;
    let cycles = cycles_of(alloc, jobs.as_slice())?;
    let order = order_of(alloc, cycles.as_slice())?;
    Ok(Plan {
        insns: insns_in(alloc, insns, order.as_slice())?,
        cycles: cycles_in(alloc, insns, cycles.as_slice(), order.as_slice())?,
    })
}
