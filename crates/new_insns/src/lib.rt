//! The instructions that stand in the place of others.
//!
//! A pass gives patterns for a window of a function's chain; [`insns_for`] makes instructions of
//! them (`specs/Made.antt`): each has the kind that its pattern says, the last has the uid of the
//! window's last, the others take uids from a number on, and a call that stands in the place of a
//! call has its uses. `specs/Replaced.antt` says what a function is with others in the place of a
//! window.
#![tactic(auto)]

mod made;

pub use made::{insns_for, kind_of};
