//! What is told of small cases of comparisons: instructions beside the lines, or the instructions,
//! that stand in their place.
//!
//! A case is an input of a table, `LIVE | INSNS | LINES` or `LIVE | INSNS | INSNS`, where `-`
//! stands for none; [`answer`] tells the verdict, which the case compares with what it wants.
#![tactic(auto)]

mod sides;
mod verdict;

use case_text::Told;
use std::alloc::Global;

/// Tells what comes of an input. Whether there is such a table.
pub fn answer(alloc: Global, table: &str, given: &[u8], input: &[u8], told: &mut Told) -> bool {
    match table {
        "equated lines" => verdict::tell_lines(alloc, given, input, told),
        "equated instructions" => verdict::tell_insns(alloc, input, told),
        _ => return false,
    }
    true
}
