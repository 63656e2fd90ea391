//! The text of an image.
//!
//! Promised: [`text_of`] gives the text: for each function its name, and each of its words on a line
//! behind its address, with eight hexadecimal digits each; and behind all of them a line for each
//! symbol that is no function, with its address.
#![tactic(auto)]

mod text;
mod words;

pub use text::text_of;
