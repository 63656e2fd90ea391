//! What in a form of a description a reason is about.
//!
//! [`own_about`] gives, for a form that is set aside, what its reason is about by the form's own text:
//! the part, the tree or the line, and where that stands (`specs/Own.antt`). [`place_in`] gives the
//! place of a text in a tree, and [`place_of`] that of a tree.
#![tactic(auto)]

mod about;
mod layout;
mod own;
mod sought;

pub use about::About;
pub use own::own_about;
pub use sought::{place_in, place_of};
