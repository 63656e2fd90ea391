//! Where texts of C stop.
//!
//! [`stop_of`] tells how many bytes of a text begin one of the grammar of conditions or of
//! statements (`c_cond`), where the text is none of it. `specs/Stop.antt` says what that is;
//! `proofs/Stops.antt` has that each text has one such answer, as a value, for definitions that
//! speak of it.
#![tactic(auto)]

mod stop;

pub use stop::{Grammar, stop_of};
