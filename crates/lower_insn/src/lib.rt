//! What an instruction is lowered to by the forms of a description.
//!
//! Before registers have homes each instruction has to be matched by a form. For one that none
//! matches, a description names forms by the standard names: [`lowered`] finds the form of its
//! name, makes the operands what the form asks for, comparisons last, of what the others are by
//! then (`specs/Settings.antt`), and gives what the form emits, with what stands before and behind
//! (`specs/Lowered.antt`).
//!
//! What makes operands so is lowered in the same way. [`lowered`] has a stack of its own of what is
//! still to be made.
#![tactic(auto)]

mod address;
mod comparison;
mod emit;
mod fit;
mod form;
mod insn;
mod part;
mod plan;
mod prepared;
mod work;

pub use insn::lowered;
pub use part::{Lowered, Part, Plan, Prepared, Uids};
