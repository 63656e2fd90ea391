//! Fills the template of a form: GCC Internals, "Output Templates and Operand Substitution".
//!
//! [`fill`] appends the text that a template gives, in one alternative, for operands, the number of
//! a function and the uid of an instruction (`specs/Filled.antt`); where memory runs out, nothing
//! is appended. What a sequence of a template prints of its operand stands in
//! `specs/Sequence.antt`, and what an operand is by itself in `specs/Operand.antt`. A sequence of
//! which the operand is missing, or of a kind of which nothing is said, prints a double quote, as
//! no line of the assembler has one. [`print_label`] appends a label of a function, and
//! [`lines_of`] gives the lines of a text, and [`read_lines`] what lines of the assembler they are
//! (`specs/Read.antt`).
#![tactic(auto)]

mod operand;
mod read;
mod sequence;
mod template;

pub use read::read_lines;
pub use sequence::print_label;
pub use template::{fill, lines_of};
