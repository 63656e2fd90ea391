//! The frame of a function: how it is made and left, what stays through the run between, and what
//! it keeps.
//!
//! There is no code here. `specs/Frame.antt` says which instructions make a frame and which leave
//! it, and what a function is with its frame; `specs/Kept.antt` what stays through the run of a
//! function in a frame that others make and leave; `specs/Keeps.antt` when a function does in a
//! frame of its own what another does in such a one, and leaves to its caller what it found.
#![tactic(auto)]
