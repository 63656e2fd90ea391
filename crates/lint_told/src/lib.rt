//! What is told of an alternative of a form of a description.
//!
//! [`told_of`] tries the instances of an alternative (`lint_tried`), and compares those for which
//! the form is chosen at output in this alternative with the form's lines (`lint_judge`): it tells
//! the first that is wrong, or that the form is chosen for none (`specs/Told.antt`).
#![tactic(auto)]

mod told;

pub use lint_judge::{Fault, Judged};
pub use lint_tried::{Instance, tested_numbers};
pub use told::{AlternativeTold, Told, told_of};
