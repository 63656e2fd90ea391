//! What lines of RISC-V assembly mean: the step of one line, and the run of a list of lines and
//! labels.
//!
//! A register is unset or holds a number. A line that reads an unset register, makes an access that
//! has no value, names a symbol that has no address, jumps to a label that isn't there, returns to
//! another address than that of the caller, or is no line of the table, is stuck. Promised:
//! [`step_line`] and [`run_lines`] are their definitions, and the first takes no memory;
//! [`lines_standing`] is the second with its calls counted, and keeps no memory of any call. A run
//! gathers the labels once, and finds each at once from then on.
#![tactic(auto)]

mod label;
mod outcome;
mod registers;
mod run;
mod state;
mod step;

pub use outcome::{CodeCall, CodeCalls, CodeOutcome, CodeStanding, Saved};
pub use run::{lines_standing, run_lines};
pub use state::{LineEnd, RvState};
pub use step::step_line;
