//! The words and the tokens of the C conditions and preparation statements of machine descriptions.
//!
//! [`tokens_in`] cuts a text into its tokens (`specs/Tokens.antt`); a [`Lexer`] does so byte by
//! byte. [`atom_of`] says what a word means where an expression may begin (`specs/Atoms.antt`).
//! [`CondHead`] is what conditions and statements are made of.
#![tactic(auto)]

mod atom;
mod head;
mod keyword;
mod known;
mod lexer;
mod token;
mod word;

pub use atom::{Atom, Dialect, Property, atom_of};
pub use head::{Binary, Call, CondHead, Unary};
pub use keyword::Keyword;
pub use known::known_words;
pub use lexer::{Lexer, Pending, in_word, token_of_run, tokens_in};
pub use token::{Token, operator_of_two, token_of_byte};
pub use word::{code_in_capitals, mode_named};
