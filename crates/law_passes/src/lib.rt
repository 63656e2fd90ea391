//! When lines that stand for a function behind all passes have the behaviour of the function that
//! was read.
//!
//! There is no code here. The laws, in `proofs/`, are what a function sees of a start of whose room
//! only the nearest bytes are there (`Nearer`); what comes to the same as what restores a caller's
//! registers (`Restored`); and that all passes together keep behaviour, whatever they are
//! (`Whole`), and as the relations of the passes say (`Made`).
#![tactic(auto)]
