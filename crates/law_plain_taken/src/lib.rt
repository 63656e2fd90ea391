//! What the plain forms' patterns, predicates and conditions take.
//!
//! There is no code here. These laws go from operands to matches: an instruction that is made of
//! operands which the predicates of a pattern accept is matched by it (`proofs/Sets.antt`,
//! `proofs/Leads.antt`); registers, constants and symbols are accepted by the predicates that the plain
//! forms define (`proofs/Takes.antt`); and their conditions are met before registers have homes
//! (`proofs/Conditions.antt`).
#![tactic(auto)]
