//! Functions that a description refuses.
//!
//! [`refused_of`] compiles the functions that are tried (`lint_groups`), group by group, and tells of
//! each group the first that is refused, with the line of its refusal, unless that line was told
//! before (`specs/Refused.antt`).
#![tactic(auto)]

mod refused;

pub use refused::refused_of;
