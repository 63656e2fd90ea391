//! Two instructions as one.
//!
//! [`set_of`] tells the pseudo register of which an instruction is a plain set, [`use_of`] the one
//! place at which a pattern reads a register, and [`fused`] what the pattern becomes with an
//! expression put in there and simplified (`specs/Fused.antt`). Whether that does the same is not
//! said here.
#![tactic(auto)]

mod putting;
mod reads;
mod sets;

pub use putting::fused;
pub use reads::use_of;
pub use sets::set_of;
