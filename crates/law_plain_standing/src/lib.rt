//! How the operands of plain forms stand in an alternative, once registers have homes.
//!
//! There is no code here. An operand is a register, a slot, a constant, a symbol or memory
//! (`proofs/Sorts.antt`); by that, and by what is asked of it, these laws say whether it stays or is
//! moved, and what it needs (`proofs/Standings.antt`, `proofs/Sits.antt`), and that what is moved may
//! have one of t3 to t6 (`proofs/Takes.antt`).
#![tactic(auto)]
