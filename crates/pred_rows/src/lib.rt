//! The tests of predicates and constraints, kept in a row, and when they hold.
//!
//! When a test holds for an operand is defined in `specs/Tests.antt`, whatever predicates accept.
//! [`TestRows`] keeps copies of tests as their questions in a row, each behind those that it is
//! made of; [`TestRows::push`] puts a test in, and [`TestRows::holds`] says whether it holds, and
//! takes no memory. It goes as deep as the test.
#![tactic(auto)]

mod asked;
mod node;
mod row;

pub use asked::{condition_holds, has_code};
pub use node::{Heads, Node, Nodes};
pub use row::TestRows;
