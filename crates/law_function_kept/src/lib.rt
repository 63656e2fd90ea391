//! When a function does what another does.
//!
//! There is no code here. `specs/Keeps.antt` says it: from every start of a machine and in every
//! world, each run of the first that has a value is matched by one of the second, which makes the
//! same calls, ends the same way with the same result and memory, leaves in the registers that a
//! function preserves what the first is known to leave there, takes at least as many jumps, and
//! returns at the end of its chain only where the first does (`specs/Ends.antt`). The relation is
//! transitive, and what has the behaviour of the second has that of the first; so passes are
//! composed.
#![tactic(auto)]
