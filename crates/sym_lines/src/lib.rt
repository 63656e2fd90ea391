//! What lines of RISC-V assembly come to, as terms over what registers, symbols and memory were
//! before the first of them.
//!
//! [`run_sym_lines`] gives the symbolic state of a list of lines, or the place of the first that
//! can't be compared, or that a term is too large; [`run_line_on`] makes the step of one line,
//! which is its meaning with terms in place of numbers. [`label_uid`] says for which uid a symbol
//! stands: that whose label's text it is. Each call gives what its definition gives, unless memory
//! runs out.
#![tactic(auto)]

mod compute;
mod label;
mod run;
mod source;
mod step;

pub use label::label_uid;
pub use run::{run_line_on, run_sym_lines};
