//! The plain rows that lead elsewhere: branches, jumps, calls and returns.
//!
//! There is no code here. Each of these laws is that the one line that a plain form prints is equated
//! with each of its instructions, over all registers, labels and symbols and whatever is live behind
//! them: a branch on one of ten comparisons leads to its label under the same condition
//! (`proofs/Branches.antt`), a jump leads there always (`proofs/Jumped.antt`), a call has the same
//! address and hands over what the instruction does (`proofs/Calls.antt`), and a return goes back by
//! `ret` (`proofs/Returns.antt`).
#![tactic(auto)]
