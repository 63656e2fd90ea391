//! Jobs.
use dfa_ways::Ways;
use plain_data::Items;

/// A job that another depends on, and how many cycles lie between both at least.
#[derive(Clone, Copy)]
pub struct Ask {
    /// The place of the job.
    pub job: usize,
    /// The cycles between both.
    pub weight: usize,
}

/// A job.
#[derive(Drop)]
pub struct Job {
    /// The ways in which it takes units, in the order in which they are tried.
    pub ways: Ways,
    /// The jobs that it depends on.
    pub asks: Items<Ask>,
}
