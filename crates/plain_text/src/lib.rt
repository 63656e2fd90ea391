//! The text of `plain`: for each function of an input whether it is of the plain profile, and else
//! the first of its instructions that is outside (`specs/Plain.antt`).
//!
//! [`plain_of`] gives the text for the bytes of an input, or what refuses the input.
#![tactic(auto)]

mod text;

pub use text::plain_of;
