//! Why a pass goes no further with a function, and what a comparison of its own windows refuses.
//!
//! A [`PassRefusal`] is an instruction that no form matches, a window that is not equated with what
//! would stand in its place, or a quantity that passes its number. [`judge`] compares a window with
//! what would stand in its place by a form, and refuses with the first item in which they differ
//! (`specs/Refused.antt`).
#![tactic(auto)]

mod compare;
mod refusal;

pub use compare::judge;
pub use equate::Side;
pub use refusal::{PassRefusal, unmatched};
