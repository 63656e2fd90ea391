//! The comparison of two symbolic states: the first item in which they differ.
//!
//! [`difference_between`] compares the registers that are live behind, the stores, the jump, the
//! call and the needs, in this order, and gives the first item that fails with its terms on both
//! sides, or the first need of the second state that the first has not. It gives what its
//! definition gives, unless memory runs out.
#![tactic(auto)]

mod call;
mod difference;
mod jump;
mod needs;
mod numbers;
mod registers;
mod states;
mod stores;

pub use difference::SymDifference;
pub use states::difference_between;
