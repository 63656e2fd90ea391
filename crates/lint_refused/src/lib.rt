//! What is told of a function that a description refuses.
//!
//! A [`Refused`] says what the function is called, why it is refused, by which line, and where that is
//! told: of the description, or at a form. [`told_at`] gives what a refusal tells there, if it says
//! something, and [`push_told`] puts it behind what is told, unless its line was told before
//! (`specs/Told.antt`). [`any_unequal`] says whether something is refused because what would
//! stand in its place is not known to do the same (`specs/Refused.antt`).
#![tactic(auto)]

mod refused;
mod told;

pub use refused::{Refused, Site, Why, any_unequal};
pub use told::{push_told, told_at};
