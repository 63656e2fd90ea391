//! Where a job finds room.
ghost use Rattle.std.specs.Prelude.{◌≡◌, ◌<◌, ◌≤◌, length};
ghost use Rattle.std.specs.List.{AllByRecursion};
ghost use Rattle.job_order.specs.Jobs.{IsAsk, IsJob};
ghost use Rattle.job_order.specs.Slots as spec;
ghost use Rattle.job_order.specs.machine.Bounds.{AreNear};

use crate::job::{Ask, Job};
use crate::placed::Placed;
use crate::units::free_way;
use dfa_ways::Way;

/// A cycle, and a way that is taken from there on.
#[derive(Drop)]
pub struct Slot<'a> {
    /// The cycle.
    pub cycle: usize,
    /// The way.
    pub way: &'a Way,
}

/// The first cycle that is late enough for what a job at a place depends on.
#[tactic(auto, using(crate::proofs::SlotLaws::late_more, crate::proofs::SlotLaws::late_all))]
fn late_for(place: usize, cycles: &[usize], asks: &[Ask]) -> usize
    requires asks { AllByRecursion (IsAsk place) asks.now }
    requires within { place ≤ length cycles.now }
    requires near { AreNear cycles.now }
    ensures { result ≡ spec.late_for cycles.now asks.now }
{
    let mut late: usize = 0;
    for ask in asks {
        late = late.max(cycles[ask.job] + ask.weight);
    }
    late
}

/// The slot of a job: the least cycle that is late enough and from which on a way is free, and the
/// first such way.
#[tactic(auto, using(crate::proofs::SlotLaws::least_more, crate::proofs::SlotLaws::free_at_last))]
pub fn slot_for<'a>(placed: &Placed, place: usize, job: &'a Job) -> Slot<'a>
    requires job { IsJob place job.now }
    requires within { place ≤ length placed.now.cycles }
    requires near { AreNear placed.now.cycles }
    ensures { spec.IsSlot placed.now job.now result.cycle result.way.now }
{
    let mut cycle = late_for(place, placed.cycles.as_slice(), job.asks.as_slice());
    loop {
        if let Some(way) = free_way(placed.taken.as_slice(), cycle, job.ways.as_slice()) {
            return Slot { cycle, way };
        }
        cycle += 1;
    }
}
