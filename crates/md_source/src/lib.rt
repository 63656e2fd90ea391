//! Reads a machine description with the files that it includes.
//!
//! [`gather`] gives the trees of the description of a name, in order, with those of each included
//! file in the place of the tree that includes it (`specs/Include.antt` says which trees those
//! are). What it comes to is a relation by cases over all that is known of the files
//! (`specs/Source.antt`): a file is read whole before anything that it includes, so a fault in it
//! is told first; at most 16,777,216 bytes are read in all, and at most 16 files stand within each
//! other. Where all files that the description is made of are known, it comes to one answer. The
//! name `rv64im` is the shipped description. Files are asked for no name but the description's own
//! and those that a text read before includes (`specs/Asked.antt`); a fault is answered only where
//! their count of faults rose, and there the names asked end at the one that failed, with nothing
//! refused before it (`specs/Faults.antt`).
#![tactic(auto)]

mod include;
mod read;
mod refusal;
mod trees;

pub use read::SHIPPED;
pub use refusal::SourceRefusal;
pub use trees::gather;
