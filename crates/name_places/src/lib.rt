//! Lists whose elements have names.
//!
//! Promised: a [`NameTable`] is a list, and contracts see it as one. Its first element of a name
//! (`specs/Names.antt`) is found at once, whatever the number of elements, by [`Places`]: there a
//! name has the place under which it was put first, and none where it was not put. [`Constants`]
//! are the named numbers of a description.
#![tactic(auto)]

mod constants;
mod places;
mod table;

pub use constants::{Constants, constant_named};
pub use places::Places;
pub use table::{NameTable, Named};
