//! Members of constraints that admit nothing of what is tried.
//!
//! [`idle_of`] tells, of an alternative of a form, the members of the constraints of its operands
//! that admit no operand of the instances that are tried of it, where there are some.
#![tactic(auto)]

mod admits;
mod idle;

pub use idle::{Idle, idle_of};
