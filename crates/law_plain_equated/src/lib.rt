//! What lowering puts in the place of plain instructions is equated with them.
//!
//! There is no code here. Instructions of well-formed parts can be compared (`proofs/Wells.antt`,
//! `proofs/Plains.antt`); a new register that was set is read as what it was set to, and all else is read
//! as before (`proofs/ReadBack.antt`).
#![tactic(auto)]
