//! The words that several texts share, read and printed: decimal numbers, numbers of C, blanks, and
//! the symbols of the assembler.
//!
//! Promised: [`number_in`] gives the number of 64 signed bits whose decimal text the bytes are, and
//! `None` exactly where they are the text of none; [`c_number_in`] gives the number that a text
//! writes as C does; [`is_symbol`] tells exactly the symbols, [`same`] whether two texts are equal,
//! [`behind_blanks`] and [`behind_spaces`] give what stands behind the blanks of a text, or behind
//! its spaces and tabs, and [`cut`] what stands before and behind the first of a byte. None of them
//! takes memory.
//! [`print_text`], [`print_count`] and [`print_number`] append bytes, a count and a signed number
//! to a text.
#![tactic(auto)]

mod blanks;
mod cutting;
mod number;
mod print;
mod words;

pub use blanks::{all_blank, behind_blanks, behind_spaces, is_blank, is_space};
pub use cutting::cut;
pub use number::c_number_in;
pub use print::{print_count, print_number, print_text};
pub use words::{is_symbol, is_symbol_byte, number_in, same};
