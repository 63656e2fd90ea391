//! The forms of a machine description's trees.
//!
//! [`forms_of_trees`] expands the trees over their iterators and reads each as a form, or tells
//! that there are more than 20,000 (`specs/Trees.antt`).
#![tactic(auto)]

mod refusal;
mod trees;

pub use refusal::DescRefusal;
pub use trees::forms_of_trees;
