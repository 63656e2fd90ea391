//! What was placed so far.
ghost use Rattle.std.specs.Prelude.{◌≡◌, ◌+◌, ◌<◌, ◌^◌, IfOk, length};
ghost use Rattle.std.specs.List.{list_all};
ghost use Rattle.job_order.specs.Order as spec;

use crate::job::{Ask, Job};
use crate::units::taken_from;
use plain_data::{Items, Memory};
use std::alloc::Global;

/// Some jobs are placed.
#[derive(Drop)]
pub struct Placed {
    /// The cycle of each job; 0 where it is not placed.
    pub cycles: Items<usize>,
    /// Whether each job is placed.
    pub are_placed: Items<bool>,
    /// The units that are taken in each cycle: unit u is bit u.
    pub taken: Items<u64>,
}

impl Placed {
    /// None of so many jobs is.
    pub fn none(alloc: Global, count: usize) -> Result<Placed, Memory>
        ensures { IfOk result (λ s. s ≡ spec.none_placed count) }
    {
        Ok(Placed {
            cycles: Items::from_vec(vec![in alloc; 0usize; count]?),
            are_placed: Items::from_vec(vec![in alloc; false; count]?),
            taken: Items::new(alloc),
        })
    }

    /// Whether the job at a place is placed.
    pub fn is_placed(&self, place: usize) -> bool
        ensures { result ≡ spec.is_placed self.now place }
    {
        place < self.are_placed.len() && *self.are_placed.item(place)
    }

    /// Whether each job that a job depends on is placed.
    fn are_asked(&self, asks: &[Ask]) -> bool
        ensures { result ≡ list_all (λ ask. spec.is_placed self.now ask.job) asks.now }
    {
        asks.iter().all(|ask| self.is_placed(ask.job))
    }

    /// Whether the job at a place is not placed, and each that it depends on is.
    pub fn is_ready(&self, place: usize, job: &Job) -> bool
        ensures { result ≡ spec.is_ready self.now place job.now }
    {
        !self.is_placed(place) && self.are_asked(job.asks.as_slice())
    }

    /// With a job more, at a cycle, which takes a way from there on.
    pub fn with(self, place: usize, cycle: usize, way: &[u64]) -> Result<Placed, Memory>
        requires cycles { place < length self.cycles }
        requires marks { place < length self.are_placed }
        requires small { cycle + length way.now < 2 ^ 64 }
        ensures { IfOk result (λ s. s ≡ spec.placed_at self place cycle way.now) }
    {
        let Placed {
            mut cycles,
            mut are_placed,
            taken,
        } = self;
        cycles.replace(place, cycle);
        are_placed.replace(place, true);
        Ok(Placed {
            cycles,
            are_placed,
            taken: taken_from(taken, cycle, way)?,
        })
    }
}
