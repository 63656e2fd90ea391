//! The run of the words of an image's function.
//!
//! There is no code here. `specs/Run.antt` defines the run: it fetches the word at a program counter,
//! decodes it, and does what the base instruction does, within the function's own words. The laws in
//! `proofs/` say that a function has as many words as its pieces say, and that the words at its entry
//! are its own.
#![tactic(auto)]
