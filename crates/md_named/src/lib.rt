//! The description of a name.
//!
//! [`description_of`] reads the description with its includes (`md_source`) and describes its trees
//! (`md_desc`), or tells what refused it: its files, or the number of its forms
//! (`specs/Named.antt`). By files of which enough is known it comes to one answer.
#![tactic(auto)]

mod named;

pub use named::{description_of, source_refused};
