//! Sums, products and operators on bits of terms that are in normal form already: constants are
//! added or joined, equal atoms and parts are joined, and all stand in order.
//!
//! Each call gives the term of its definition in `term_mean`, unless memory runs out.
#![tactic(auto)]

mod atoms;
mod gathering;
mod joints;
mod sums;

pub use gathering::{Gathered, constant_of, gather};
pub use joints::{finished, joined, plain};
pub use sums::{constant_term, minus, minus_one, negated, plus_times, sum, summed, times};
