//! Prints trees of the text format.
//!
//! [`print_tree`] appends the text of a tree on one line (`specs/Print.antt`), which is read as
//! that tree again, places aside, wherever a text can be one of that tree. It goes as deep as the
//! tree.
#![tactic(auto)]

mod print;

pub use print::print_tree;
