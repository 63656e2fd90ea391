//! What is told of small cases of C conditions and of the small texts of descriptions.
//!
//! A case is an input of a table; [`answer`] tells what comes of it, which the case compares with
//! what it wants.
#![tactic(auto)]

mod heads;
mod iterators;
mod texts;
mod words;

use case_text::Told;
pub use iterators::constants_in;
use std::alloc::Global;

/// Tells what comes of an input. Whether there is such a table.
pub fn answer(alloc: Global, table: &str, given: &[u8], input: &[u8], told: &mut Told) -> bool {
    match table {
        "tokens" => words::tell_tokens(alloc, input, told),
        "words" => words::tell_word(alloc, given, input, told),
        "known words" => words::tell_known(alloc, given, told),
        "registers" => words::tell_register(input, told),
        "shipped text" => words::tell_shipped(told),
        "conditions" => heads::tell_cond(alloc, given, input, told),
        "tests" => heads::tell_test(alloc, given, input, told),
        "preparations" => heads::tell_prep(alloc, given, input, told),
        "members" => texts::tell_members(alloc, input, told),
        "constraints" => texts::tell_constraint(alloc, given, input, told),
        "templates" => texts::tell_template(alloc, input, told),
        "expansions" => iterators::tell(alloc, given, input, told),
        _ => return false,
    }
    true
}
