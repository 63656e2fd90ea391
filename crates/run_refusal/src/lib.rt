//! The refusals of a run: why it ends with another status than 0, which status that is, and the
//! line that says so.
//!
//! A [`Refusal`] has each value that its line shows. [`status`] gives the exit status; the line of
//! a refusal without values is fixed and takes no memory ([`fixed_line`]), any other is made by
//! [`line`].
#![tactic(auto)]

mod refusal;

pub use refusal::{MEMORY_LINE, Refusal, fixed_line, line, status};
