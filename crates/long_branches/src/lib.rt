//! The least set of long branches of a function's code.
//!
//! Code is given by its pieces: each has so many words, or is a branch to a piece. Promised:
//! [`least_long`] gives a flag for each piece, such that every branch without one reaches its piece,
//! and such that a branch has one in each set of long branches that has this property. There is one
//! such set. It grows from none: each round makes the branches long that don't reach, and takes time
//! in proportion to the number of pieces. [`places_of`] gives where the pieces begin.
#![tactic(auto)]

mod least;
mod piece;

pub use least::{least_long, places_of};
pub use piece::Piece;
