//! The instructions of regions put in the order in which a pipeline takes them soonest.
//!
//! [`schedule`] goes over a function from the left. The instructions of each region are jobs that
//! take units of the pipeline and wait for each other; they are placed in cycles, and come in the
//! order of these, where that is equated with the order in which they stood over what is live behind
//! the region. A region that isn't equated with its new order stays, and nothing is told of it
//! (`specs/Schedule.antt`).
#![tactic(auto)]

mod compare;
mod jobs;
mod pass;
mod plan;

pub use pass::schedule;
pub use plan::CycleOf;
