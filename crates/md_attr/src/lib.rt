//! The values of attributes, in each alternative of each form of a machine description.
//!
//! [`Attributes::of`] makes a table of what forms define and give. Promised: of a table that is
//! that of some forms, [`value`] gives the value of an attribute in an alternative, as
//! `specs/Values.antt` has it, [`enabled`] tells whether that alternative can be used, and
//! [`has_alternative`] whether it is one of an accepted form (`specs/Alternatives.antt`). None of
//! the three takes memory.
#![tactic(auto)]

mod attributes;
mod defaults;
mod settings;

pub use attributes::{Attributes, enabled, has_alternative, value};
