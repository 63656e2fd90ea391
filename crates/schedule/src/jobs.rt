//! The jobs of instructions.
ghost use Rattle.std.specs.Prelude.{◌≡◌, ◌≤◌, length, IfOk};
ghost use Rattle.rtx_tree.specs.Limit.{most_scheduled};
ghost use Rattle.job_order.specs.Jobs.{AreJobs};
ghost use Rattle.md_dfa.specs.Lawful.{AreLawful};
ghost use Rattle.schedule.specs.machine.Made.{AreJobsOf};

use job_order::Job;
use md_desc::Description;
use md_dfa::Pipeline;
use pipe_uses::takes;
use plain_data::{Items, Memory};
use region_jobs::asks_of;
use rtx_tree::Insn;
use std::alloc::Global;

/// The jobs of the instructions of a region.
#[tactic(auto, using(crate::proofs::JobLaws::upto_none, crate::proofs::JobLaws::upto_more, crate::proofs::JobLaws::upto_all, crate::proofs::JobLaws::upto_long, crate::proofs::JobLaws::are_placeable))]
pub fn jobs_of(
    alloc: Global,
    desc: &Description,
    pipe: &Pipeline,
    insns: &[Insn],
) -> Result<Items<Job>, Memory>
    requires lawful { AreLawful pipe.now }
    requires few { length insns.now ≤ most_scheduled }
    ensures jobs { IfOk result (AreJobsOf desc.now pipe.now insns.now) }
    ensures placeable { IfOk result (λ jobs. AreJobs jobs) }
{
    let mut jobs = Items::new(alloc);
    let mut latencies = Items::new(alloc);
    for (place, insn) in insns.iter().enumerate() {
        let taken = takes(alloc, desc, pipe, insn)?;
        let asks = asks_of(alloc, &insns[..place], latencies.as_slice(), insn)?;
        latencies.push(taken.latency)?;
        jobs.push(Job {
            ways: taken.ways,
            asks,
        })?;
    }
    Ok(jobs)
}
