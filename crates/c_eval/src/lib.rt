//! The value of conditions.
//!
//! What a condition is worth is defined in `specs/Value.antt`: a number of 64 signed bits, which is
//! 0 where a shift count or an accessor that C evaluates has no value. [`eval`] gives it. [`Facts`]
//! is what is known besides the operands, and [`Preds`] says which trees predicates accept.
//! [`eval_test`] and [`test_worth`] give what the test of a predicate is worth for an operand, and
//! [`read`] what the last tree of a row of heads is read as. None of them takes memory, and their
//! calls are nested no deeper than a number has bits, however deep a condition is (`src/walk.rt`).
//! Whether codes, modes and trees are the same is told as definitions ask for it, and [`size_of`]
//! is how many parts a head has.
#![tactic(auto)]

mod accessor;
mod facts;
mod known;
mod number;
mod preds;
mod reading;
mod reads;
mod value;
mod walk;
mod worth;

pub use accessor::{is_a, register_in, same_code, same_mode, same_tree};
pub use facts::{DeadTable, Facts};
pub use preds::Preds;
pub use reading::Reading;
pub use walk::size_of;
pub use worth::{eval, eval_test, read, test_worth};
