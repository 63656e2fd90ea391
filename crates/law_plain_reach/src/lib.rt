//! What makes an alternative of a plain form reachable, whatever the homes of registers.
//!
//! There is no code here. What is asked of an alternative (registers, what may share one, what may be
//! moved, and that the instruction stays within the table) is put together of what holds of each
//! operand: of one and two operands (`proofs/Two.antt`), and of three (`proofs/Three.antt`). A form with
//! a reachable alternative is not refused (`proofs/Reached.antt`).
#![tactic(auto)]
