//! What is told of small cases of symbolic terms: their texts, their normal forms and comparisons.
//!
//! A case is an input of a table; [`answer`] tells what comes of it, which the case compares with
//! what it wants.
#![tactic(auto)]

mod normal;
mod term;

use case_text::Told;
pub use normal::show as show_term;
use std::alloc::Global;
pub use term::{register, register_term};

/// Tells what comes of an input. Whether there is such a table.
pub fn answer(alloc: Global, table: &str, given: &[u8], input: &[u8], told: &mut Told) -> bool {
    match table {
        "terms" => normal::tell_text(alloc, input, told),
        "normal forms" => normal::tell_normal(alloc, given, input, told),
        "relations" => normal::tell_relation(alloc, input, told),
        _ => return false,
    }
    true
}
