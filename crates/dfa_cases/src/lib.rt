//! What is told of small cases of pipelines: the ways of expressions, and the reservations of
//! descriptions.
//!
//! A case is an input of a table; [`answer`] tells what comes of it, which the case compares with
//! what it wants.
#![tactic(auto)]

mod reservations;
mod ways;

use case_text::Told;
use std::alloc::Global;

/// Tells what comes of an input. Whether there is such a table.
pub fn answer(alloc: Global, table: &str, given: &[u8], input: &[u8], told: &mut Told) -> bool {
    match table {
        "ways" => ways::tell(alloc, given, input, told),
        "reservations" => reservations::tell(alloc, input, told),
        _ => return false,
    }
    true
}
