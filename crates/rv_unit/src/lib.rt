//! The words of one function's lines.
//!
//! Promised: [`layout_of`] gives where each line leads to, the least set of long branches, and where
//! all lines stand; [`push_unit`] gives the words of the lines in this layout, for symbols at given
//! addresses. Labels and symbols are found at once.
#![tactic(auto)]

mod labels;
mod layout;
mod names;
mod symbols;
mod words;

pub use layout::{Layout, layout_of};
pub use names::{mnemonic_named, spelling_named};
pub use symbols::SymbolTable;
pub use words::push_unit;
