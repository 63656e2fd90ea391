//! Reuse of values in a block: what is computed again is taken from the register that has it, and
//! sets of registers that are dead behind them go, until there is neither.
//!
//! `specs/Reuse.antt` says what a repeated value and a dead set are, which of them is next, and what
//! comes of it. [`reuse`] looks at the seconds of repeated values from the left. What stands behind
//! a changed place by more than the greatest distance is as it was, and so is what stands in front
//! of it: only between these it looks again. Where a set is taken out, the firsts stand in front of
//! it. The search for dead sets goes on from where what is live has stayed.
#![tactic(auto)]

mod again;
mod between;
mod dead;
mod formed;
mod pass;
mod search;
mod sets;
mod window;

pub use pass::reuse;
