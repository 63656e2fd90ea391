//! The image of functions: the words that a processor fetches.
//!
//! Promised: [`assemble`] gives the words of the functions, one function behind the other, with the
//! least set of long branches in each, the entries of all functions, and the addresses of the
//! symbols that their lines name and that are no function. It refuses exactly the functions whose
//! image has more than 1,048,572 bytes, and says how many it has.
#![tactic(auto)]

mod image;
mod outside;
#[cfg(test)]
mod tests;
mod units;

pub use image::{AssembleRefusal, CodeUnit, FIRST_ENTRY, Image};
pub use units::assemble;
