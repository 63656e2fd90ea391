//! A function whose windows are rewritten behind the frame keeps what the passes there ask.
//!
//! There is no code here. The laws, in `proofs/`, are that such a function does what it did, and
//! that each of its instructions is still as lines ask (`Placed`); and that it names registers of
//! the machine alone where it did (`Hard`).
#![tactic(auto)]
