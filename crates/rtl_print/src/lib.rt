//! Prints expressions and functions of RTL as text.
//!
//! [`print_rtx`] appends an expression on one line (`specs/Print.antt`), [`print_function`] a
//! function as canonical text (`specs/Canonical.antt`). What can be read of some text is read back
//! from what is printed of it, a function where reading has nothing more to drop of its calls
//! (`specs/Back.antt`).
#![tactic(auto)]

mod canonical;
mod print;

pub use canonical::print_function;
pub use print::{print_reg, print_rtx};
