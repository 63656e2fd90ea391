//! What plain forms match.
//!
//! There is no code here. The patterns of the plain forms that are printed have ten shapes. Each of
//! these laws is that what a pattern of a shape matches is the pattern with its operands in their
//! places, each accepted by the predicate of its place (`proofs/Patterns.antt` for single
//! placeholders, `proofs/Sets.antt`, `proofs/Leads.antt`).
#![tactic(auto)]
