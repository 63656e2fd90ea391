//! When lines are equated with an instruction.
//!
//! There is no code here. What is compared of one instruction and the lines that stand for it is a
//! register that is set, a value that is stored, a place that is led to or an address that is called
//! (`specs/Frames.antt`). Each of these laws is that two such states have no difference, whatever is
//! live behind them, where as much is known of the one as of the other (`proofs/Agreed.antt`,
//! `proofs/Called.antt`), and that the two sides are then equated (`proofs/Equated.antt`). What an
//! instruction does whose pattern is written out is said in `proofs/Effects.antt`, and what one line
//! or two leave in a register in `proofs/Computes.antt` and `proofs/TwoLines.antt`.
#![tactic(auto)]
