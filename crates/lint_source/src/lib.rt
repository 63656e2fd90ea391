//! A description as it is tried: its forms, and what they are written as.
//!
//! [`read_description`] reads the description of a name with its includes (`md_source`), expands its forms
//! over their iterators (`md_iter`) and describes them (`md_desc`), or tells what refused it
//! (`specs/Sourced.antt`). [`places_of`] gives the place at which each form begins, and [`runs_of`]
//! tells in which file: for each form that of the tree which makes it (`specs/Runs.antt`), as the
//! files say (`specs/Stands.antt`).
#![tactic(auto)]

mod arranged;
mod part;
mod place;
mod run;
mod source;

pub use place::places_of;
pub use run::{Run, runs_of};
pub use source::{Sourced, read_description};
