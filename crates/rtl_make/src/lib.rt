//! The generated function with a number: a large input that needs no file.
//!
//! It sets sixteen pseudo registers, goes on with so many operations that a generator of numbers
//! picks, and gives the sum of the registers. [`made`] makes it as `specs/Made.antt` says.
#![tactic(auto)]

mod function;
mod generator;
mod pattern;

pub use function::made;
