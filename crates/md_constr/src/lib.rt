//! Whether operands fit an alternative of a form of a machine description.
//!
//! [`Constraints::of`] makes a table of what forms ask of their operands. Promised: of a table that
//! is that of some forms, [`fits`] tells whether operands fit an alternative of a form, as
//! `specs/Fits.antt` has it: none is memory at a far address, each meets a member of its constraint
//! there, by `specs/Admits.antt`, and an earlyclobber output shares no register with an input. Of
//! one operand [`operand_fits`] tells the same, and [`operand_admits`] what its constraint admits.
//! [`alternatives_of`] gives the number of a form's alternatives. None of them takes memory.
//! [`inputs_of`] and [`changed_of`] are the operands that a form takes, and sets or clobbers, by its
//! patterns, and [`operands_of`] all of them, as `specs/Inputs.antt` has it.
#![tactic(auto)]

mod admits;
mod asked;
mod copies;
mod early;
mod forms;
mod inputs;
mod meaning;
mod meanings;
mod table;

pub use inputs::{changed_of, effects_of, inputs_of, operands_of};
pub use table::{Constraints, alternatives_of, fits, operand_admits, operand_fits};
