//! A function whose registers have homes.
//!
//! [`reload`] puts the frame's places and the homes of registers into each instruction of a
//! function. The instruction is matched anew before its homes are put in; of the alternatives of
//! the form that matches, the one that costs least says which operands are moved into t3 to t6 and
//! back, and so what stands before the instruction and behind it (`specs/Reload.antt`). Some form
//! of the description has to match each move. Promised: it gives exactly what is defined, or the
//! refusal that is defined, unless memory runs out. Each instruction that needs a form stands
//! between the moves of a sound plan (`specs/Windows.antt`), which is all that meaning asks of a
//! reloaded function; labels and barriers stay, and uids that differ still do.
#![tactic(auto)]

mod insn;
mod moves;
mod pass;
mod refusal;
mod setting;

pub use pass::reload;
pub use refusal::ReloadRefusal;
