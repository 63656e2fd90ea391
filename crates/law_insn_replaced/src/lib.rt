//! An instruction that is replaced by a sequence which is equated with it: what the function keeps.
//!
//! There is no code here. `specs/Sound.antt` says what is asked of a function; the laws, in
//! `proofs/Keeping.antt`, are that the function with the sequence does what the function did, and
//! has again what is asked, so that the next instruction can be replaced.
#![tactic(auto)]
