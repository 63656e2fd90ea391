//! A list that is changed near one place.
//!
//! A [`GapList`] keeps its elements in two parts, with a gap between them. To put others in the
//! place of those between two places moves the gap there, element by element, and costs what it is
//! moved and what is put in: not what stands behind. So changes that go through a list from its
//! front to its end are linear together. To put in as many or fewer takes no memory, wherever the
//! gap stands. Contracts see the one list of the elements, and not where the gap stands.
#![tactic(auto)]

mod list;
mod parts;

pub use list::GapList;
