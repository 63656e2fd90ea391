//! The law of an image: its words do what the lines of its functions do.
//!
//! There is no code here. `specs/WordsDo.antt` says the law, and `proofs/` has its proof: where the
//! lines of a function come to an outcome that is not stuck, the function's words come to the same
//! outcome in at least as many steps.
#![tactic(auto)]
