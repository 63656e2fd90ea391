//! What is told of small cases of functions, lines, memory, registers and dependences.
//!
//! A case is an input of a table; [`answer`] tells what comes of it, which the case compares with
//! what it wants.
#![tactic(auto)]

mod depends;
mod functions;
mod lines;
mod memory;
mod parts;
mod registers;
mod runs;
mod steps;

use case_text::Told;
pub use lines::line_in;
pub use parts::{function_in, halves};
use std::alloc::Global;

/// Tells what comes of an input. Whether there is such a table.
pub fn answer(alloc: Global, table: &str, given: &[u8], input: &[u8], told: &mut Told) -> bool {
    functions::answer(alloc, table, input, told)
        || steps::answer(alloc, table, given, input, told)
        || lines::answer(alloc, table, input, told)
        || runs::answer(alloc, table, input, told)
        || memory::answer(alloc, table, given, input, told)
        || registers::answer(alloc, table, input, told)
        || depends::answer(alloc, table, input, told)
}
