//! One function's assembly over a description, each instruction compared with its lines.
//!
//! [`write_function`] appends the lines round a function, for each label its line, and for each
//! instruction that needs a form the filled template of the first that counts at output, with the
//! lowest enabled alternative that fits (`specs/Comes.antt`). The lines of a template are read and
//! compared with the instruction over the registers that are live behind it, before any is written.
//! Beside the text it gives the lines and labels that the text spells. Else it answers the first
//! refusal: no form counts, the comparison fails, or the text is longer than an assembly may be.
#![tactic(auto)]

mod chosen;
mod frame;
mod function;
mod lines;
mod piece;
mod places;
mod refusal;
mod setting;

pub use function::write_function;
pub use piece::Piece;
