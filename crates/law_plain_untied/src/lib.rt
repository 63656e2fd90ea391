//! Operands of an instruction none of which a digit ties to another.
//!
//! There is no code here. Of up to four such operands these laws say what is moved, that each stands
//! for itself (`proofs/Parts.antt`), that none leads to another (`proofs/Led.antt`), and that four
//! registers suffice where they stand as those of the plain forms do (`proofs/Asked.antt`).
#![tactic(auto)]
