//! A function in which some form of a description matches each instruction that needs one.
//!
//! [`lower`] puts in the place of each other instruction what the form of its standard name makes,
//! where that is equated with the instruction over the registers that are live behind it, and does
//! not look at what it made again (`specs/Lower.antt`).
#![tactic(auto)]

mod pass;

pub use pass::lower;
