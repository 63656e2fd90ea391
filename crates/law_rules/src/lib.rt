//! What the rules of well-formed functions give.
//!
//! There is no code here. `specs/Admitted.antt` says what a function is that keeps the rules, as
//! one of an input does that none refuses; `specs/ForLines.antt` what the lines of an instruction
//! may count on. The laws, in `proofs/`, are that a function of an input keeps the rules; that the
//! return at the end of a chain changes no run; and what the rules give of labels, and of the
//! registers that instructions use and define.
#![tactic(auto)]
