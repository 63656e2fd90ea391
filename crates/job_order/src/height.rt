//! The heights of jobs.
ghost use Rattle.std.specs.Prelude.{◌≡◌, ◌+◌, ◌*◌, ◌≤◌, ◌<◌, drop, length, IfOk};
ghost use Rattle.std.specs.Option.{option_map_or};
ghost use Rattle.rtx_tree.specs.Limit as limits;
ghost use Rattle.job_order.specs.Jobs as spec;
ghost use Rattle.job_order.specs.machine.Bounds.{AreLow};

use crate::job::{Ask, Job};
use plain_data::{Items, Memory};
use std::alloc::Global;

/// The weight with which a job that asks this depends on the one at a place, if it does.
fn weight_on(place: usize, asks: &[Ask]) -> Option<usize>
    ensures { result ≡ spec.weight_on place asks.now }
{
    for ask in asks {
        if ask.job == place {
            return Some(ask.weight);
        }
    }
    None
}

/// The height of a job over one that it may depend on: 0 where it doesn't.
#[tactic(auto, using(crate::proofs::HeightLaws::weight_light))]
fn height_over(place: usize, at: usize, job: &Job, height: usize) -> usize
    requires is_job { spec.IsJob at job.now }
    requires low { height ≤ limits.most_latency * limits.most_scheduled }
    ensures over { result ≡ option_map_or (λ weight. weight + height)
        (spec.weight_on place job.now.asks) 0 }
    ensures near { result ≤ limits.most_latency + height }
{
    match weight_on(place, job.asks.as_slice()) {
        Some(weight) => weight + height,
        None => 0,
    }
}

/// The height of the job at a place, by those of the jobs behind it.
#[tactic(auto, using(crate::proofs::HeightLaws::under_more, crate::proofs::HeightLaws::under_all))]
fn height_under(place: usize, jobs: &[Job], heights: &[usize]) -> usize
    requires jobs { spec.AreJobs jobs.now }
    requires all { length heights.now ≡ length jobs.now }
    requires low { AreLow heights.now }
    requires within { place < length jobs.now }
    ensures under { result ≡ spec.height_under place
        (drop (place + 1) jobs.now) (drop (place + 1) heights.now) }
    ensures low { result + limits.most_latency * place
        ≤ limits.most_latency * length jobs.now }
{
    let mut highest: usize = 0;
    for at in place + 1..jobs.len() {
        highest = highest.max(height_over(place, at, &jobs[at], heights[at]));
    }
    highest
}

/// The height of each job.
#[tactic(auto, using(crate::proofs::HeightLaws::heights_more, crate::proofs::HeightLaws::low_more, crate::proofs::HeightLaws::low_none))]
pub fn heights_of(alloc: Global, jobs: &[Job]) -> Result<Items<usize>, Memory>
    requires { spec.AreJobs jobs.now }
    ensures heights { IfOk result (λ heights. heights ≡ spec.heights jobs.now) }
    ensures all { IfOk result (λ heights. length heights ≡ length jobs.now) }
{
    let mut heights = vec![in alloc; 0usize; jobs.len()]?;
    for place in (0..jobs.len()).rev() {
        let height = height_under(place, jobs, &heights);
        heights[place] = height;
    }
    Ok(Items::from_vec(heights))
}
