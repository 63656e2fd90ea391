//! A window of a function replaced by instructions that are equated with it.
//!
//! There is no code here. `specs/Put.antt` says what instructions in a window's place are. The laws
//! are that the function does what it did (`proofs/Does.antt`), and that it is kept as passes keep
//! functions (`proofs/Kept.antt`): the labels and barriers stand where the window has
//! its own, no register is named that the passes refuse, and no uid comes twice.
#![tactic(auto)]
