//! The whole program as one call. [`run`] takes the words of the command line and the objects of
//! the outside, and gives the exit status. Its contract ties it to one answer, which is defined for
//! the words, the files that a description is made of, and the bytes of the input: a text, or a
//! refusal with its values. With status 0 that text was written and nothing else; each other status
//! has its cause, and its line was told, in which a question mark stands for each control character
//! of a name.
//!
//! The words are read by `rtlc_words`; what the commands come to is `specs/Answer.antt`, over
//! `md_list` for `list`; for the others over `md_named`, which gives the description, and
//! `func_text`, for `eval` over `code_eval`, and for `make` over `rtl_make`. What is told of
//! functions is `specs/Told.antt`, case by case, of the generated one `specs/Generated.antt`, and
//! what was written then `specs/Written.antt`.
#![tactic(auto)]

mod program;
mod shown;
mod summary;

pub use program::{out_of_memory, run};
pub use run_refusal::Refusal;
