//! The text of symbolic terms, as messages show them.
//!
//! [`print_term`] gives the text of its definition: a sum is `(sum64 5 (1 a0) (-1 a1))`, with
//! signed numbers; a register is its name; any other term is its operator with its width and its
//! parts, as `(and64 a0 (sum64 7))`. [`print_item`] gives the text of an item in which two sides of
//! a comparison differ.
#![tactic(auto)]

mod item;
mod print;

pub use item::{Item, print_item};
pub use print::print_term;
