//! The words of lines: the base instructions of RV64I and M, each with its word of 32 bits, and which
//! of them a line is.
//!
//! One table gives a base instruction its format, its codes, and the mnemonic whose action it has, so
//! that a word does what a line of that mnemonic does; another one gives a mnemonic its words.
//! Promised: [`encode`] is the word of the manual, and [`decode`] gives the one base instruction whose
//! parts fit and whose word it is, and `None` exactly where there is none.
#![tactic(auto)]

mod base;
mod codes;
mod sequence;
mod spelling;
mod spellings;
mod word;

pub use base::{Base, BaseOp, Codes, Format};
pub use sequence::{push_words, word_count};
pub use spelling::{Number, Place, Spelling};
pub use spellings::spelling_of;
pub use word::{decode, encode};
