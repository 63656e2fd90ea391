//! What reload knows of the operands of an instruction that a plain form matches.
//!
//! There is no code here. Of patterns that are written out these laws say which operands there are
//! (`proofs/Listed.antt`), which of them are inputs and outputs (`proofs/Directed.antt`), that none
//! stands in a low part (`proofs/Whole.antt`), and what new trees in their places make of the
//! instruction (`proofs/Replaced.antt`); `proofs/Plainly.antt` puts together what is known of one.
#![tactic(auto)]
