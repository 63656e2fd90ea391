//! What a report tells beside what is found of a description.
//!
//! [`all_beside`] gives, for each finding, why nothing is reached, where that is what it tells, and
//! which members of the constraints of its alternative are idle (`specs/Beside.antt`).
#![tactic(auto)]

mod beside;

pub use beside::{Beside, all_beside};
