//! What a window of instructions does, and when lines of assembly do the same in its place.
//!
//! There is no code here. `specs/Insns.antt` says what some instructions, one behind the other, do
//! to a machine, and `specs/Lines.antt` what lines do. `specs/Same.antt` says when lines do what
//! instructions do, over the registers that are live behind: wherever the instructions have a
//! meaning, the lines go the same way, and leave the same in memory and in those registers.
#![tactic(auto)]
