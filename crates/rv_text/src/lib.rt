//! Lines of RISC-V assembly (RV64I and M, with the pseudo-instructions of the assembly manual) as
//! text.
//!
//! One table says of each mnemonic which operands it has and what a line of it does; the reader,
//! the writer and the meaning of lines are read from it. Promised: [`parse_line`] gives the one
//! line that the bytes spell by the grammar, and `None` exactly where they spell none; what
//! [`print_line`] writes of a line reads back as the line; and [`Line::action`] says what a line
//! does, and `None` exactly where a value is no line. A value of [`Line`] is one only where what
//! its mnemonic doesn't use is 0 or empty.
#![tactic(auto)]

mod action;
mod line;
mod mnemonic;
mod operand;
mod parse;
mod print;
mod table;

pub use action::{Action, Extension, Source};
pub use line::{CodeItem, Line, LineParts};
pub use mnemonic::{MNEMONICS, Mnemonic};
pub use operand::Operand;
pub use parse::parse_line;
pub use print::print_line;
pub use table::{Row, row_named};
