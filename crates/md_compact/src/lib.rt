//! Blocks in the compact syntax of GCC 14, which stand in the place of a form's template: a layout of
//! columns and names, and a row for each alternative.
//!
//! Promised: [`block_of`] gives the [`Block`] that a text is, or none exactly where it is none
//! (`specs/Block.antt`). [`column_text`], [`values_at`] and [`old_template`] give what it stands
//! for in a form without it: the constraint of an operand, what an attribute has in each
//! alternative, and the template (`specs/Old.antt`); [`has_expression`] tells whether one of its
//! outputs is C code behind `<<`. Each of them is that unless memory runs out. Whether the operands
//! and the attributes are those of a form is not looked at here.
#![tactic(auto)]

mod block;
mod layout;
mod lines;
mod old;
mod read;

pub use block::{Block, Column, Layout, Mark, Row};
pub use old::{column_text, has_expression, old_template, values_at};
pub use read::block_of;
