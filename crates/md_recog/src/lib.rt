//! Whether a form of a machine description matches instructions.
//!
//! [`match_insns`] gives the operands with which patterns match as many instructions: those with
//! which they have the shape of these (`md_match`), where each predicate accepts the operand of its
//! placeholder in the placeholder's mode, and the condition is not 0 (`c_eval`). [`match_at`] asks
//! that of a [`Half`] of one form: what it defines as an instruction, what it splits, or the window
//! that it puts others in the place of. Each gives `None` exactly where there are none such, and a
//! match has one list of operands (`specs/Match.antt`, `specs/Recog.antt`, which says also which
//! form is the first that matches).
#![tactic(auto)]

mod accepted;
mod form;
mod half;
mod matching;
mod recog;

pub use accepted::names_predicate;
pub use form::Matching;
pub use half::{Half, is_scratch};
pub use matching::{is_met, match_insns};
pub use md_match::Steps;
pub use recog::{FormMatch, match_at};
