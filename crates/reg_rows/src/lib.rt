//! Sets of registers as rows of bits, and tables of such rows.
//!
//! A [`RegRow`] has room for 64 registers in each of its words, and takes memory only when it is
//! made or makes room. Contracts see its words, and speak of them by the test `has` alone. A join
//! says whether any register was new; then the sum of the words has grown, which is how a search
//! that fills rows until nothing is new comes to its end. A table is a slice of rows of one width:
//! [`join_row`] adds a set to one of them.
#![tactic(auto)]

mod row;
mod table;
mod words;

pub use row::{RegRow, width_of};
pub use table::{empty_rows, has, join_row};
