//! Reads the functions of an input from the trees of its text.
//!
//! A tree either stands for something, or it is a construct outside the language; the first such
//! construct in the order of the text is what [`functions_of`] tells, with its place and its name.
#![tactic(auto)]

mod call;
mod chain;
mod function;
mod head;
mod locals;
mod parts;
mod pattern;
mod word;

pub use function::functions_of;
pub use lisp_read::RtlRefusal;
