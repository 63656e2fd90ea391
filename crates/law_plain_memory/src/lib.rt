//! The plain rows that load and store.
//!
//! There is no code here. Each of these laws is that the line which a plain form prints for a load or
//! a store at a register and an offset is equated with each instruction of the row, over all registers
//! and offsets and whatever is live behind it.
#![tactic(auto)]
