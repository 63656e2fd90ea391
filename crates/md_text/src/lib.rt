//! The small texts inside a form of a machine description: lists with commas, constraints, and
//! output templates.
//!
//! Promised: [`members_of`] gives what stands between the commas of a text, without the blanks
//! round it (`specs/Lists.antt`); [`constraint_of`] gives the alternatives of a constraint, or none
//! exactly where something in it is unknown (`specs/Constraint.antt`), with the names of the
//! constraints that are defined looked up at once ([`ConstraintNames`]); [`template_of`] gives a
//! template as its pieces, or tells that it is C code or has a sequence outside
//! (`specs/Template.antt`). Each of them is that unless memory runs out. What they give is plain
//! data in contracts.
#![tactic(auto)]

mod constraint;
mod line;
mod lists;
mod names;
mod sign;
mod template;

pub use constraint::{Alternative, Constraint, Direction, Letter, Member, constraint_of};
pub use line::operand_number;
pub use lists::{members_of, parts_of, trimmed};
pub use names::ConstraintNames;
pub use template::{Line, Piece, Print, Reading, Template, template_of};
