//! Which instruction depends on an earlier one, and how many cycles lie between both at least.
//!
//! An instruction depends on an earlier one where one of both defines a register that the other uses
//! or defines, or stores where the other loads or stores. Its result is waited for where the later
//! reads a register that the earlier sets, or loads what the earlier may store
//! (`specs/Depends.antt`). Both are plain instructions: of what a call may change besides nothing is
//! asked here.
#![tactic(auto)]

mod pairs;
mod registers;

pub use pairs::dependence;
