//! The instances of a form that are tried, alternative by alternative.
//!
//! [`instances_tried`] gives instructions that an alternative of a form takes, each with its
//! operands: a first, those in which one operand or two have another candidate, and those where
//! operands share registers (`specs/Tried.antt`). The candidates of an operand are those that its
//! predicate and its constraint take, with the constants at the ends of what they take
//! (`specs/Offered.antt`), for which [`tested_numbers`] gives the numbers that a description
//! compares with (`specs/Numbers.antt`). `specs/Instance.antt` says what an instance is.
//! [`accepted_form`] gives what a form says, where it is accepted, [`pattern_of`] its pattern, and a
//! [`Trial`] the parts of which instances are made.
#![tactic(auto)]

mod instance;
mod numbers;
mod offered;
mod trial;
mod tried;

pub use instance::Instance;
pub use numbers::tested_numbers;
pub use offered::Candidates;
pub use trial::Trial;
pub use tried::{accepted_form, instances_tried, pattern_of};
