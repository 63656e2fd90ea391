//! What lowering makes of comparisons of values in SI.
//!
//! There is no code here. The law is `specs/Widened.antt`'s: a register that is set to a comparison of
//! two values in SI, and a branch on one, is lowered to three instructions, or, if the second value is a
//! constant, which is set into a new register before, to four. Both values are sign extended into new
//! registers, and these are compared.
#![tactic(auto)]
