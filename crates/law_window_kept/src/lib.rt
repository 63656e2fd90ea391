//! When instructions do what other instructions do, in whose place they stand.
//!
//! There is no code here. `specs/Same.antt` says it, over the registers that are live behind:
//! wherever the first have a meaning, so have the second; they go the same way, leave the same
//! memory, and know as much of those registers.
#![tactic(auto)]
