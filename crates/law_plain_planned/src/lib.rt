//! What lowering makes of the instructions of the plain profile that no plain form matches.
//!
//! There is no code here. The law is `specs/Planned.antt`'s: an instruction which stores a constant but
//! 0, branches on a comparison in DI with one, or computes with one by an operation that takes
//! registers alone, is lowered to two instructions, of which the first sets a new pseudo register to the
//! constant.
#![tactic(auto)]
