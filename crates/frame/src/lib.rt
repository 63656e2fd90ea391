//! A function with its frame.
//!
//! [`frame`] gives a function whose registers have homes the frame of a layout: it makes the frame
//! at entry, and leaves it at each return and at the end of the chain where that is reached
//! (`specs/Framed.antt`). A frame is at most 1,048,560 bytes large, and some form of the
//! description has to match each new instruction. In a layout that gives each a place of its own,
//! and with registers of natural numbers, the function then does in a frame of its own what it did
//! in one that others make and leave, and its caller finds sp, ra and s0 to s11 as they were
//! (`law_frame`); labels and barriers stay, and uids that differ still do.
#![tactic(auto)]

mod insns;
mod pass;
mod patterns;

pub use pass::frame;
