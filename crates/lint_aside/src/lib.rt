//! What forms are set aside for.
//!
//! [`causes_of`] gives, for each form of a description that is set aside, its reason, what in it that
//! is about and where it stands (`lint_about`; `specs/Others.antt` for what other forms define), and
//! which other forms are set aside for its sake: those that name what it defines, and those that
//! name these in turn (`specs/Sake.antt`).
#![tactic(auto)]

mod cause;
mod causes;
mod others;
mod sake;

pub use cause::Cause;
pub use causes::{Causes, causes_of};
