//! An order of places in which each stands behind those that it asks.
//!
//! Which places each asks is given by a list of lists. [`order_of`] goes from each place through
//! those that it asks, and through what these ask, without nesting calls, and puts a place into the
//! order once all that it asks stand there. So in the order each place stands behind those that it
//! asks, and every place stands there where none reaches itself (`specs/Order.antt`). [`weights_of`]
//! tells how many are asked for each, where none is remembered. Both take a time that is linear in
//! the places and in what they ask.
#![tactic(auto)]

mod order;
mod search;
mod weights;

pub use order::order_of;
pub use weights::weights_of;
