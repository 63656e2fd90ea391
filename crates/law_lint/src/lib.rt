//! What is told of a description as wrong, `rtlc` refuses.
//!
//! There is no code here. One law is stated and proved (`specs/Refused.antt`,
//! `proofs/WrongLaws.antt`): where an instance that is told as wrong comes to output in the first
//! function of a text, with all registers live behind it, it is refused.
#![tactic(auto)]
