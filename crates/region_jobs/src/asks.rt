//! What the job of an instruction asks of those in front of it.
ghost use Rattle.std.specs.Prelude.{◌≡◌, ◌≤◌, ◌++◌, length, IfOk, OnOk};
ghost use Rattle.region_jobs.specs.Jobs as spec;
ghost use Rattle.region_jobs.specs.Kept.{MakeJobs, KeepDependences};

use insn_depends::dependence;
use job_order::Ask;
use plain_data::{Items, Memory};
use rtx_tree::Insn;
use std::alloc::Global;

/// Adds what is asked of the instruction at a place, if anything is.
fn add_ask(place: usize, weight: Option<u32>, asks: &mut Items<Ask>) -> Result<(), Memory>
    ensures { OnOk result (asks.new ≡ asks.old ++ spec.ask_for place weight) }
{
    match weight {
        Some(weight) => asks.push(Ask {
            job: place,
            weight: weight as usize,
        }),
        None => Ok(()),
    }
}

/// What the job of an instruction asks of those in front of it, which have latencies. The jobs of a
/// region can be placed, and in whatever order they come, dependences are kept.
///
/// # Errors
///
/// `Memory` where memory ran out, or the number of a register is past 32 bits.
#[tactic(auto, using(crate::proofs::AskLaws::asks_more, crate::proofs::AskLaws::asks_all, crate::proofs::JobLaws::make_jobs))]
pub fn asks_of(
    alloc: Global,
    before: &[Insn],
    latencies: &[u32],
    later: &Insn,
) -> Result<Items<Ask>, Memory>
    requires { length before.now ≤ length latencies.now }
    ensures asks { IfOk result (λ asks.
        asks ≡ spec.asks_from 0 before.now latencies.now later.now) }
    ensures placeable { MakeJobs }
    ensures kept { KeepDependences }
{
    let mut asks = Items::new(alloc);
    for (place, earlier) in before.iter().enumerate() {
        let weight = dependence(latencies[place], earlier, later)?;
        add_ask(place, weight, &mut asks)?;
    }
    Ok(asks)
}
