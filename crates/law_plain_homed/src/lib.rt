//! What stands for the operands of a plain form once registers have homes.
//!
//! There is no code here. A register stands in a register or in a slot, and constants, symbols and
//! memory stay such (`proofs/Leaves.antt`); what is above the operands stays as it is
//! (`proofs/Nodes.antt`).
#![tactic(auto)]
