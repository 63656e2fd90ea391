//! The list of a description's forms: one line for each, with its number, its head, its name, and
//! `ok`, or `aside` with the number of the reason why it is set aside.
//!
//! [`list`] reads the description with its includes, expands it over its iterators, and lists its
//! forms (`specs/Listing.antt`); or it tells what refused it, the files before the number of forms.
#![tactic(auto)]

mod line;
mod listing;
mod refusal;

pub use listing::list;
pub use refusal::ListRefusal;
