//! Registers that a function does not name yet.
//!
//! There is no code here. The laws are `specs/Fresh.antt`'s: a pseudo register from the first free number
//! on stands in no instruction of the function and is live nowhere; and what is made of an expression is
//! the same by registers that hold the same, as far as the expression names them.
#![tactic(auto)]
