//! Symbolic terms: what a register, a stored value or a condition is, as an expression over the
//! registers, symbols and memories with which a run begins.
//!
//! A [`Term`] is a sum of a constant and atoms with coefficients, or an operator over parts. Terms
//! are plain data in contracts, so two of them are equal in a clause exactly where they are the
//! same all the way down, and a copy equals its source. The definitions speak of a term as a tree,
//! `tree_of`; `compare` is the order of trees, `is_well_formed` tells the trees whose widths and
//! numbers fit, and `is_small` tells those that have no more nodes and levels than a term of a
//! comparison may have, which a [`Measured`] term knows of itself.
#![tactic(auto)]

mod form;
mod head;
mod measured;
mod nodes;
mod order;
mod term;

pub use form::{are_of_width, is_narrower, is_same_width, is_well_formed};
pub use head::{Extension, Head, Joint};
pub use measured::Measured;
pub use nodes::is_small;
pub use order::{compare, place};
pub use term::{Atom, Atoms, Term, Terms};
