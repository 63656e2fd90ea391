//! What instructions take of a pipeline.
//!
//! The reservation of an instruction is the first of the pipeline whose test holds in the alternative
//! of the form that counts for it at output. An instruction without one, one that no form counts for,
//! and a `use` or a `clobber` alone take no unit, and what they set may be read one cycle later
//! (`specs/Takes.antt`).
#![tactic(auto)]

mod copies;
mod uses;

pub use uses::takes;
