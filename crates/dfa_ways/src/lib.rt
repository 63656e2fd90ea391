//! The ways in which an instruction may take the units of a pipeline, read from the expression of its
//! reservation.
//!
//! [`ways_of`] gives the [`Ways`] that a text writes over some units, or none exactly where it is no
//! expression, names no unit of these, takes a unit twice in a cycle, or passes 64 ways or 64 cycles
//! (`specs/Expression.antt`). It calls itself nowhere, however deep the parentheses stand.
#![tactic(auto)]

mod expression;
mod join;
mod level;
mod token;
mod way;

pub use expression::ways_of;
pub use way::{Way, Ways};
