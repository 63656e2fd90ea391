//! Why no instance of an alternative is reached.
//!
//! [`why_unreached`] tells what takes the first instance of an alternative, another form or another
//! alternative, or the first of some causes why there is none that holds: the condition is 0, an
//! operand has no candidate, or none of the choices of candidates makes an instance
//! (`specs/Why.antt`). A [`Stage`] says how far the choices come (`specs/Choices.antt`).
#![tactic(auto)]

mod choice;
mod why;

pub use choice::Stage;
pub use why::{Why, why_unreached};
