//! What the parts of a case of whole runs say: its words, its files, its input, which calls are to
//! fail, and what is wanted. A testing tool, of which nothing is promised but that it is safe.
//!
//! A case has the words of the command line in a part `$ WORDS`, with one blank between two words
//! and `""` for the empty word; several of these are as many cases, which share the other parts.
//! What the program meets stands in `-- file NAME` and `-- input`. The Nth read of the input, write
//! of the output, fetch of a file or write of the errors fails where a part `-- fails read N`, `--
//! fails write N`, `-- fails fetch N` or `-- fails tell N` says so, and `-- takes N` says how many
//! bytes a write takes at most. What is wanted stands in `-- status N`, `-- output` and `--
//! errors`. What has no part is empty, and the status is 0. The parts before the first case hold
//! for each case that has none of its own.
#![tactic(auto)]

mod ending;
mod fault;
mod setting;
mod shelf;

pub use ending::outcome;
pub use fault::Fault;
pub use setting::{
    Setting, bytes_of, check_parts, failing, is_command, status_of, takes_of, words_of,
};
pub use shelf::shelf_of;
