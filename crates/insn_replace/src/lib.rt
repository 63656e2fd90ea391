//! An instruction of a function, replaced by a sequence that is equated with it.
//!
//! [`replace_insn`] makes instructions of a sequence of patterns, compares them with the
//! instruction at a place over the registers that are live behind it, and puts them into its place
//! where they are equated with it (`specs/Replace.antt`). A function that would have too many
//! instructions then is refused before, with their number. Else it refuses with what the comparison
//! tells: a part that can't be compared, a term that is too large, or the first item in which they
//! differ; and the function stays as it is.
#![tactic(auto)]

mod replace;

pub use replace::replace_insn;
