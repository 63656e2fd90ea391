//! The numbers of the registers of functions that were read.
//!
//! There is no code here and no definition. The law, in `proofs/Natural.antt`, is that no register
//! of an instruction that was read has a number below 0.
#![tactic(auto)]
