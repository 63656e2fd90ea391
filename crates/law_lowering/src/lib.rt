//! What an instruction is lowered to.
//!
//! There is no code here and no definition. The laws, in `proofs/Arguments.antt` and
//! `proofs/Made.antt`, are that an instruction which names of the hard registers a0 to a7 alone is
//! lowered to such instructions, and that what takes its place has registers of natural numbers.
#![tactic(auto)]
