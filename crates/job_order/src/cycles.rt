//! The cycles of jobs.
ghost use Rattle.std.specs.Prelude.{◌≡◌, ◌<◌, IfOk, IfSome, length};
ghost use Rattle.job_order.specs.Jobs.{AreJobs};
ghost use Rattle.job_order.specs.Order as spec;

use crate::height::heights_of;
use crate::job::Job;
use crate::placed::Placed;
use crate::slot::slot_for;
use plain_data::{Items, Memory};
use std::alloc::Global;

/// A place, or another behind it whose job is higher.
fn higher(heights: &[usize], place: usize, other: Option<usize>) -> usize
    requires place { place < length heights.now }
    requires other { IfSome other (λ other. other < length heights.now) }
    ensures higher { result ≡ spec.higher heights.now place other }
    ensures within { result < length heights.now }
{
    match other {
        Some(other) if heights[place] < heights[other] => other,
        _ => place,
    }
}

/// The job that is ready and the highest, and of those the first.
#[tactic(auto, using(crate::proofs::NextLaws::next_more, crate::proofs::NextLaws::next_not))]
fn next(jobs: &[Job], heights: &[usize], placed: &Placed) -> Option<usize>
    requires { length heights.now ≡ length jobs.now }
    ensures next { result ≡ spec.next_from placed.now heights.now 0 jobs.now }
    ensures within { IfSome result (λ place. place < length jobs.now) }
{
    let mut next = None;
    for place in (0..jobs.len()).rev() {
        if placed.is_ready(place, &jobs[place]) {
            next = Some(higher(heights, place, next));
        }
    }
    next
}

/// The cycle of each job.
pub fn cycles_of(alloc: Global, jobs: &[Job]) -> Result<Items<usize>, Memory>
    requires { AreJobs jobs.now }
    ensures { IfOk result (λ cycles. spec.AreCycles jobs.now cycles) }
{
    let heights = heights_of(alloc, jobs)?;
    let mut placed = Placed::none(alloc, jobs.len())?;
    while let Some(place) = next(jobs, heights.as_slice(), &placed) {
        let slot = slot_for(&placed, place, &jobs[place]);
        placed = placed.with(place, slot.cycle, slot.way.as_slice())?;
    }
    Ok(placed.cycles)
}
