//! What instructions come to, as terms over what registers, symbols and memory were before the
//! first of them.
//!
//! [`run_rtl`] gives the symbolic state of a list of instructions, or the place of the first that
//! can't be compared, or that a term is too large. It is, step by step, the meaning of an
//! instruction with terms in place of numbers: the value of an expression, the effects of an
//! instruction, where it leads and what it calls. [`run_on`] is one such step. Each call gives what
//! its definition gives, unless memory runs out.
#![tactic(auto)]

mod before;
mod call;
mod effect;
mod jump;
mod operation;
mod run;
mod shape;
mod value;

pub use run::{run_on, run_rtl};
