//! What is told of small cases: texts, trees, expressions and functions.
//!
//! A case is an input of a table; [`answer`] tells what comes of it, which the case compares with
//! what it wants.
#![tactic(auto)]

mod functions;
mod shown;
mod trees;

use case_text::Told;
pub use shown::{show, show_refusal};
use std::alloc::Global;
pub use trees::{show_tree, show_trees, tree_in, trees_in};

/// Tells what comes of an input. Whether there is such a table.
pub fn answer(alloc: Global, table: &str, input: &[u8], told: &mut Told) -> bool {
    match table {
        "echo" => told.push(input),
        "texts" => trees::tell_text(alloc, input, told),
        "places of trees" => trees::tell_places(alloc, input, told),
        "printed trees" => trees::tell_printed(alloc, input, told),
        "expressions" => shown::tell_expressions(alloc, input, told),
        "functions" => functions::tell_canonical(alloc, input, told),
        "parts of functions" => functions::tell_parts(alloc, input, told),
        _ => return false,
    }
    true
}
