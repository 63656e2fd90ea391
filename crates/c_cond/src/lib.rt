//! Reads the C conditions and the preparation statements of machine descriptions.
//!
//! [`parse_cond`] reads the condition of a form, [`parse_test`] the test of a predicate, and
//! [`parse_prep`] preparation statements. Each gives exactly the tree that the grammar
//! (`specs/Grammar.antt`, over the tokens of `c_words`) gives the text, with C's precedence; a text
//! has one tree at most, and is refused exactly where it has none, unless memory runs out.
//! Contracts see [`Cond`] and [`Prep`] as trees. The code keeps the heads of a tree in a row, each
//! behind its parts, and parses with a stack of its own: neither reading nor dropping recurses over
//! the text, so that nesting has no limit.
#![tactic(auto)]

mod front;
mod goal;
mod parse;
mod parser;
mod part;
mod takes;
mod tree;

pub use c_words::{Binary, Call, CondHead, Unary};
pub use parse::{Cond, CondRefusal, Prep, heads_copy, parse_cond, parse_prep, parse_test};
pub use tree::Tree;
