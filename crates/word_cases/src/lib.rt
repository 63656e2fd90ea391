//! What is told of small cases of words: the words of lines, and the base instruction of a word.
//!
//! A case is an input of a table; [`answer`] tells what comes of it, which the case compares with
//! what it wants.
#![tactic(auto)]

mod bases;
mod lines;

use case_text::Told;
use std::alloc::Global;

/// Tells what comes of an input. Whether there is such a table.
pub fn answer(alloc: Global, table: &str, input: &[u8], told: &mut Told) -> bool {
    match table {
        "words of lines" => lines::tell_words(alloc, input, told),
        "base instructions" => bases::tell_base(input, told),
        _ => return false,
    }
    true
}
