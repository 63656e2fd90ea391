//! What is found of a description.
//!
//! [`findings_of`] tells of each form that is set aside its reason, and of each alternative of a
//! form that prints lines what `lint_told` tells, in the order of the forms (`specs/Found.antt`);
//! [`Finding::is_wrong`] whether a finding says that something is wrong.
#![tactic(auto)]

mod found;

pub use found::{Finding, Findings, any_wrong, findings_of};
