//! The order of jobs that take units of a pipeline.
//!
//! [`cycles_of`] gives each job of a list its cycle: of the jobs that are ready the highest is placed,
//! and of those the first, at the least cycle that is late enough for what it depends on and from
//! which on one of its ways meets no unit that is taken. [`order_of`] gives the places of the jobs in
//! the order of their cycles. Both are told by `specs/Order.antt`; numbers alone are known here.
#![tactic(auto)]

mod cycles;
mod height;
mod job;
mod order;
mod placed;
mod slot;
mod units;

pub use cycles::cycles_of;
pub use job::{Ask, Job};
pub use order::order_of;
