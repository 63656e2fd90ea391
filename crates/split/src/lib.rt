//! Instructions split by a description.
//!
//! [`split`] replaces each instruction that a split form of a description matches by what the first
//! such form emits, where that is equated with the instruction over the registers that are live
//! behind it, and tries the new instructions again (`specs/Split.antt`). At most eight splits
//! follow from one another. It is told which pass it is: before registers have homes new pseudo
//! registers may be made, and a sequence that names a hard register other than those of arguments
//! counts as that of a form that fails. `specs/Left.antt` says what it leaves of a function.
//! [`first_split`] tells the first form that splits an instruction, and what it emits.
#![tactic(auto)]

mod form;
mod homes;
mod pass;

pub use form::{FormSplit, first_split};
pub use pass::split;
