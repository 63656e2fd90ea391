//! What the passes make of a function, one behind the other.
//!
//! [`behind`] takes a function through the passes up to one, or tells what one of them refuses, by
//! the function's name and the pass; [`after`] takes it through all (`specs/After.antt`). What was
//! made so far is a [`Compilation`]: the function, and the layout of its frame once it is reloaded.
//! `specs/Each.antt` says what some things come to, one behind the other.
#![tactic(auto)]

mod change;
mod compilation;
mod pass;
mod passes;
mod refusal;

pub use change::Change;
pub use compilation::Compilation;
pub use passes::{after, behind};
pub use refusal::{refused_at, unmatched};
