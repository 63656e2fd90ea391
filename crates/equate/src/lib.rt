//! Whether instructions do what other instructions, or lines of assembly, do that stand in their
//! place.
//!
//! [`equate`] runs each side symbolically and compares the two states over the registers that are
//! live behind: it answers that they are the same, or the first item in which they differ, or the
//! place of a part that can't be compared, or that a term is too large. It answers what its
//! definition says, unless memory runs out. Sides that do the same may be told apart.
#![tactic(auto)]

mod judge;
mod returns;
mod verdict;

pub use judge::equate;
pub use verdict::{Side, Verdict};
