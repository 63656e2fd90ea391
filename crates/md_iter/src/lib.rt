//! Expands the forms of a machine description over its iterators.
//!
//! A description defines iterators (of modes, codes and integers), attributes that give each value
//! of an iterator a text, and constants. [`expand_forms`] takes these definitions out and gives all
//! other trees, the forms, in order: each of them once for every choice of values of the iterators
//! that it uses, the first of them varying slowest, with the conditions of these values
//! (`specs/Expansion.antt`). It answers [`IterRefusal::Limit`] exactly where that makes more than
//! 20,000 forms, with the tree that passes this number, and before it makes the forms of that tree.
//! What is defined is found by its name at once, whatever the number of definitions.
#![tactic(auto)]

mod angles;
mod attribute;
mod choice;
mod definition;
mod expand;
mod firsts;
mod kinded;
mod number;
mod refusal;
mod shape;
mod substitution;

pub use expand::{Expanded, expand_forms};
pub use refusal::IterRefusal;
pub use substitution::Instance;
