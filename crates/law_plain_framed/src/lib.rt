//! What the frame pass puts in is matched by a plain form, so that pass refuses nothing but a frame
//! that is too large.
//!
//! There is no code here. The law is `specs/Framed.antt`'s. A move of a register, a constant, a symbol
//! or memory, and a sum with a register or a constant, are matched by a plain form whatever is known of
//! registers (`proofs/Moves.antt`), which serves the moves that reload makes too.
#![tactic(auto)]
