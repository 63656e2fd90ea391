//! The first form of a machine description of which a half matches an instruction, found by the
//! instruction's key: GCC Internals, "Pattern Ordering".
//!
//! The key of an instruction is its code with the code of its source (`specs/Key.antt`). What
//! matches it has its key, so of the forms only those with the key are tried, in the order of the
//! text: [`recog`] gives the first form from an index on that matches, or `None` exactly where none
//! does, after at most as many tries as there are forms with the key. [`next_window`] gives the
//! next form whose window may begin with an instruction (`specs/Windows.antt`). [`Tables`] keep the keys of a
//! half of a description's forms: of the instructions that they define, of those that they split,
//! or of the first instructions of their windows.
#![tactic(auto)]

mod key;
mod search;
mod tables;

pub use search::{next_window, recog};
pub use tables::Tables;
