//! The functions that are tried for a description, in groups.
//!
//! [`groups_of`] gives the groups: one for each shape of the plain profile, values in each mode kept
//! over a call, and for each form that splits, and each peephole, the instructions that it matches.
//! [`tries_of`] gives the functions of a group, each a [`Try`] with what it is called
//! (`specs/Groups.antt`).
#![tactic(auto)]

mod group;
mod tries;

pub use group::{Group, groups_of};
pub use tries::{Tries, Try, tries_of};
