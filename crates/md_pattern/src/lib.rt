//! Reads the patterns of a machine description, and says why what is read of one is set aside.
//!
//! [`pattern_of`] gives the expression that a tree of a description writes, as an `Rtx` in which
//! the five `match` codes stand too, with the constraints of its operands beside it; or the
//! smallest [`Reason`] that applies anywhere in the tree. The table of codes (`rtx_tree`) has what
//! stands behind each code, `specs/Pattern.antt` says what a pattern is. It goes as deep as the
//! tree, which is bounded where `read_trees` gave it.
#![tactic(auto)]

mod operand;
mod pattern;
mod reason;
mod word;

pub use operand::{OperandText, OperandTexts, number_in};
pub use pattern::{Pattern, Patterns, no_patterns, pattern_of, patterns_of};
pub use reason::{Judged, Reason, both};
