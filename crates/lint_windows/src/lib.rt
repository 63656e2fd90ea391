//! The windows of a peephole that are tried.
//!
//! [`windows_tried`] gives windows of plain instructions that the form of a peephole matches: their
//! operands are accepted by its predicates, in the choices round the first of each
//! (`specs/Windows.antt`).
#![tactic(auto)]

mod windows;

pub use windows::{Windows, windows_tried};
