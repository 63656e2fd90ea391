//! The standard names of instructions.
//!
//! A description names the forms that it has for the operations that every back end needs: `addsi3`
//! adds two values of mode SI. [`standard_of`] gives the name of what a pattern does, where it has
//! one, with the operands that the name speaks of, each with its role in the instruction
//! (`specs/Names.antt`).
#![tactic(auto)]

mod names;
mod operands;
mod standard;
mod words;

pub use names::standard_of;
pub use standard::{OperandRole, Standard, StandardOperand};
