//! Comparisons of terms that are in normal form already: whether a term is 0, and whether one is
//! less than another.
//!
//! [`equals_zero`] and [`less_than`] apply the rules of tests for 0 and of comparisons: each looks
//! through extensions of one kind, and what it makes there is made by the same rules. [`relate`]
//! gives any of the ten comparisons of two terms as a term that is not in normal form, and it means
//! the comparison. Operators over two parts, and their numbers on two constants, stand here too,
//! since comparisons are the lowest rules that make them. Each call gives the term of its
//! definition in `term_mean`, unless memory runs out.
//!
//! The rules of a test for 0 make tests again, in as many rounds as the term has nodes, and those
//! of a comparison at most three times. The contracts say that more rounds give the same.
#![tactic(auto)]

mod constants;
mod less;
mod operands;
mod relations;
mod truths;
mod zero;

pub use constants::{binary_number, on_constants, own_width, truth, two_copies, two_parts};
pub use less::less_than;
pub use relations::relate;
pub use truths::opposite;
pub use zero::equals_zero;
