//! Which instructions read memory, and which write it.
//!
//! A `set` of memory stores. A `set` loads what its source and the address of its place have in
//! memory; a `use` what it names; a `clobber` neither loads nor stores. A call may read and write
//! any memory besides: whoever asks knows that it is one by its kind.
#![tactic(auto)]

mod asked;

pub use asked::{does_load, does_store, has_memory};
