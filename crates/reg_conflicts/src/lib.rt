//! Which registers conflict: one is defined where the other is live after.
//!
//! [`conflict_rows`] gives for each register the row of those with which it conflicts. The rows
//! hold exactly the pairs that the paths of the function give, each pair in both of its rows. A row
//! has words only where its register has a conflict.
#![tactic(auto)]

mod fill;
mod mark;

pub use fill::{conflict_rows, width_of_rows};
