//! A function and its code, tried: what both come to from one start in one world.
//!
//! [`eval_text`] runs a function for so many steps and its lines and labels for 64 times as many
//! lines and 1,000 more, from the start of `specs/Start.antt` in the world of `World.antt`, and
//! gives a line for each of the two outcomes. The lines are those of `Ending.antt` and `Eval.antt`,
//! over the runs that `func_run` and `rv_line` define. The world is lawful, and so is the start
//! where the locals fit in the stack: what `same_behaviour` says of a function and its items then
//! speaks of these two runs.
#![tactic(auto)]

mod ending;
mod eval;
mod start;
mod world;

pub use ending::{Ending, code_ending, print_line, rtl_ending};
pub use eval::eval_text;
