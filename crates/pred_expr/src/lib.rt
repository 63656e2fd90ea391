//! Reads the conditions, the statements and the tests of a machine description from their texts and
//! trees.
//!
//! [`condition`] and [`statements`] give what a text of C is, or why it is set aside; [`test_of`]
//! gives the test of a predicate or a constraint, or the smallest reason that applies anywhere in
//! it (`specs/Test.antt`). What a text of C is, `specs/Texts.antt` says, and the clauses `grammar`
//! say that it is what the grammar of `c_cond` gives.
#![tactic(auto)]

mod question;
mod test;
mod texts;

pub use question::{Codes, Question, Test, Tests};
pub use test::test_of;
pub use texts::{condition, no_condition, no_statements, statements};
