//! What is told of small cases of descriptions: patterns, forms, predicates, constraints,
//! attributes, sources, lists and filled templates.
//!
//! A case is an input of a table; [`answer`] tells what comes of it, which the case compares with
//! what it wants.
#![tactic(auto)]

mod forms;
mod matches;
mod operands;
mod outputs;
mod parts;
mod predicates;
mod shelf;
mod sources;
mod worth;

use case_text::Told;
use std::alloc::Global;

/// Tells what comes of an input. Whether there is such a table.
pub fn answer(alloc: Global, table: &str, given: &[u8], input: &[u8], told: &mut Told) -> bool {
    predicates::answer(alloc, table, given, input, told)
        || matches::answer(alloc, table, input, told)
        || forms::answer(alloc, table, given, input, told)
        || worth::answer(alloc, table, given, input, told)
        || sources::answer(alloc, table, given, input, told)
        || outputs::answer(alloc, table, input, told)
        || operands::answer(alloc, table, input, told)
}
