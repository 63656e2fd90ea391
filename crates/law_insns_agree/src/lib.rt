//! What the agreement of symbolic states of instructions means.
//!
//! There is no code here. The law, in `proofs/`, is that instructions whose symbolic state agrees
//! with that of a window, over the registers that are live behind it, do what the window does, so
//! that they can stand in its place.
#![tactic(auto)]
