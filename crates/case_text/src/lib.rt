//! Files of cases: how they are read, what is told of an input ([`Told`]), and the report on them.
//! A testing tool, of which nothing is promised but that it is safe.
//!
//! A file of cases is lines of UTF-8 text, of one of two kinds. A file of tables (read line by line
//! by [`Table`]) has a line `table NAME` and below it a case a line, `INPUT => WANTED`. A file of
//! whole runs ([`cases_of`]) has cases of several lines, each below a line `== TITLE`.
//!
//! In both the one character that is not itself is the backquote: with two lowercase hexadecimal
//! digits behind it it is that byte, and at the end of a line it takes the newline away. A
//! backslash and a tab are themselves.
#![tactic(auto)]

mod case;
mod escape;
mod report;
mod table;
mod told;

pub use case::{Case, Part, cases_of};
pub use escape::{push_bytes, push_shown, push_word};
pub use report::Report;
pub use table::{Table, is_table};
pub use told::Told;
