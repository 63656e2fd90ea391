//! Which operands the predicates of the plain forms accept, and which their constraints admit.
//!
//! There is no code here. The predicates that the manual has answer themselves, in any description.
//! What a description defines holds of those whose definitions are the plain ones
//! (`specs/Have.antt`), as they are of the plain forms: each of these laws says of one predicate or
//! one constraint which operands it takes, in the words of `md_operand`
//! (`proofs/Predicates.antt`, `proofs/Constraints.antt`).
#![tactic(auto)]
