//! What holds of the ways of each expression.
//!
//! There is no code here. Two laws are stated and proved. An expression has a way, and no more ways
//! than it may have, each of one cycle or more and of no more cycles than it may have
//! (`specs/Lawful.antt`, `proofs/WholeWays.antt`), so a job finds room where nothing is taken. And
//! whatever ways an expression has, the grammar of the manual derives them (`specs/Grammar.antt`,
//! `proofs/Derived.antt`).
#![tactic(auto)]
