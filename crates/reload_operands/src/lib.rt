//! What reload knows of an instruction's operands, and new trees in their places.
//!
//! Of an instruction that a pattern matches, with its references to the frame put in, and of the
//! same with its homes, [`operands_of`] tells each operand: the tree with its homes, whether it is
//! taken, set or clobbered, where it lives, and what a move of it would meet
//! (`specs/Operands.antt`). [`whole_of`] tells what is asked of the instruction as a whole. [`put`]
//! puts new trees in the operands' places (`specs/Put.antt`). Promised: each gives exactly what its
//! definition gives, unless memory runs out.
#![tactic(auto)]

mod bases;
mod changes;
mod directions;
mod effects;
mod inside;
mod news;
mod numbers;
mod operand;
mod operands;
mod whole;

pub use news::put;
pub use operand::{Base, Operand};
pub use operands::operands_of;
pub use whole::{Whole, whole_of};
