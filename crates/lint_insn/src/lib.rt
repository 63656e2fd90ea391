//! An instruction of a pattern, as it is tried: alone.
//!
//! [`insn_of`] makes it: its kind is that of its pattern, and a call hands over a0 to a7.
//! [`is_lawful`] tells whether it can stand in a function and be compared by itself
//! (`specs/Insn.antt`).
#![tactic(auto)]

mod insn;

pub use insn::{insn_of, is_lawful};
