//! The target: RV64I with M, as this back end uses it.
//!
//! Promised: [`shipped`] is the text of the shipped description (`specs/Shipped.antt`). It takes no
//! memory.
#![tactic(auto)]

mod description;

pub use description::{RV64IM, shipped};
