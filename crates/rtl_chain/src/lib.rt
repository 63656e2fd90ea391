//! What a chain of instructions has, and how it ends.
//!
//! [`instruction_count`], [`greatest_uid`] and [`next_pseudo`] are the numbers that
//! `specs/Counts.antt` defines, and take no memory. A chain is written with a return at its end
//! where a path of its instructions leads there, and else as it is (`specs/End.antt`): [`end_of`]
//! gives what is added.
#![tactic(auto)]

mod counts;
mod end;

pub use counts::{greatest_uid, instruction_count, next_pseudo};
pub use end::{end_of, is_ended, return_insn};
