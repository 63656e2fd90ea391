//! A function in which instructions stand in the place of windows, which they can replace, does
//! what the function did.
//!
//! There is no code here. `specs/Replaced.antt` says what a chain with other instructions in the
//! place of windows is, over what is live behind each window in the function; `specs/Natural.antt`
//! what is asked of the registers' numbers. The laws, in `proofs/Replacing.antt`, are
//! `all_replaced`, for any windows at once, and `replaced_keeps` for one. The run of the new
//! function waits at a window while the old one goes through it, and then takes its own
//! instructions at once. It returns at the end of the chain only where the old one does
//! (`proofs/Ends.antt`).
#![tactic(auto)]
