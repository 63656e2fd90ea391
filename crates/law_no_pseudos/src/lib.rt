//! Behind reload no register stands in a function but those of the machine.
//!
//! There is no code here. `specs/Hard.antt` says of which instructions and functions that holds.
//! The laws, in `proofs/`, are that a function whose registers get homes is one (`Homes`, `Living`,
//! `Moves`, `Between`, `Reloaded`), that it is one with a frame of its own (`Framed`), and that it
//! is one when its instructions are split by a description where no register may be made
//! (`Split`).
#![tactic(auto)]
