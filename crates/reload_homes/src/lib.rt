//! Trees with references to the frame, and then the homes of registers, put in.
//!
//! Once a function's frame has a size, [`with_frame`] replaces `virtual-stack-vars`, alone or with
//! a constant added, by `sp` and a constant (`specs/FrameRefs.antt`). Then [`with_homes`] replaces
//! each register, or the low part of one, by the hard register or the memory of the slot in which
//! it lives (`specs/Homes.antt`). Promised: each gives exactly what its definition gives, unless
//! memory runs out. Where homes and slots are looked up they are in increasing number, as `assign`
//! gives them.
#![tactic(auto)]

mod frame_refs;
mod homes;
mod lookup;
mod parts;

pub use frame_refs::{from_sp, with_frame};
pub use homes::{place_for, register_at, register_in, with_homes};
pub use lookup::{home_at, slot_offset};
pub use parts::with_parts;
