//! A window of a function replaced by the instructions that a sequence makes.
//!
//! There is no code here. `specs/Made.antt` says what such a window is: its instructions are no
//! labels and no barriers, and those that the sequence makes in the place of its last are equated
//! with it. The laws are that the function does what it did (`proofs/Does.antt`); that its labels
//! and barriers stay, that uids differ where they did, and that no register has a number below 0
//! where none had (`Kept.antt`); how long it is (`Counts.antt`); and what is known of each new
//! instruction (`Each.antt`).
#![tactic(auto)]
