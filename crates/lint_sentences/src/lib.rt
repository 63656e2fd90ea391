//! The sentences of a report on a description.
//!
//! Each call appends a text that its definition gives: where a form stands and what is found of it
//! ([`print_found`]); why it is set aside ([`print_reason`], [`print_about`]); an instance with its
//! operands and lines ([`print_instance`]); what differs ([`print_difference`], [`print_line`],
//! [`print_need`]); why nothing is reached ([`print_without`]); and the summary of all findings, by
//! their kinds ([`print_summary`]). A line that goes on with what stands before it begins with a tab.
#![tactic(auto)]

mod fault;
mod instance;
mod kind;
mod place;
mod reason;
mod summary;
mod unreached;

pub use fault::{print_difference, print_line, print_need};
pub use instance::print_instance;
pub use kind::Kind;
pub use place::{print_at, print_found, print_place};
pub use reason::{print_about, print_reason, print_so_aside};
pub use summary::print_summary;
pub use unreached::{print_takes, print_without};
