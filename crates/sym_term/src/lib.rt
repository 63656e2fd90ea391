//! The normal form of symbolic terms.
//!
//! [`norm`] gives the normal form of a term under the stores so far: first that of the parts, and
//! then the rules of the head. It equals its definition, which stands in `term_mean`, and it means
//! what the term means. Shifts and loads have their files here, and a [`TermMaker`], by which terms
//! in normal form are made of terms in normal form; sums, products and operators on bits stand in
//! `term_sums`, truncation, extension and masks in `term_cuts`, truths, tests for 0 and comparisons
//! in `term_zero`, from which [`relate`] comes.
#![tactic(auto)]

mod loads;
mod maker;
mod normal;
mod opaque;
mod shifts;
mod stores;

pub use maker::TermMaker;
pub use normal::{TermRefusal, norm};
pub use stores::{SymStore, SymStores};
pub use term_zero::relate;
