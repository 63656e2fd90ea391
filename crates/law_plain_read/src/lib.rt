//! What is read of an input can be printed.
//!
//! There is no code here. The law is `specs/Read.antt`'s: in the functions that trees stand for, each
//! number has 64 signed bits, each symbol is one that the assembler takes, and what a call uses has a
//! mode.
#![tactic(auto)]
