//! The registers from which a path leads to a use, for each place of a graph.
//!
//! A [`Node`] says which registers its place uses and defines, and which places may follow it, at
//! most two. [`live_rows`] gives a row for each place, with exactly the registers that a path leads
//! from there to a use of, without a definition between. Rows begin with what each place uses and
//! grow until nothing is new. All places wait to be visited at first, and where the row of a place
//! grows, those that lead to it wait again. Rounds go down over those that wait: what comes to wait
//! below the place that is visited has its turn in the same round, the rest in the next.
#![tactic(auto)]

mod back;
mod node;
mod round;
mod solve;
mod visit;
mod waiting;

pub use node::Node;
pub use solve::live_rows;
pub use visit::add_place;
