//! What an instruction and the lines of a template come to, compared by themselves.
//!
//! [`judge`] fills a template with operands, reads its lines, and compares these with an instruction
//! while all registers of the machine but `zero` are live behind: the fault is what differs first,
//! or which line can't be read or compared (`specs/Judged.antt`). There is a fault exactly where the
//! two are not equated.
#![tactic(auto)]

mod judged;
mod lines;
mod live;

pub use judged::{Fault, Judged, judge};
