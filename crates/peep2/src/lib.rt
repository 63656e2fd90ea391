//! Peephole optimizations by a description.
//!
//! [`peep2`] goes over a function from its beginning: where a form rewrites a window of instructions
//! (`specs/Rewrite.antt`), the sequence of the first that does is put in the window's place, where
//! it is equated with it over the registers that are live behind, and the scan goes on behind it
//! (`specs/Cover.antt`). A form's condition knows which registers are dead, and is read before the
//! scratches of its window are given registers (`specs/Scratch.antt`).
#![tactic(auto)]

mod facts;
mod form;
mod pass;
mod run;
mod scratch;

pub use pass::peep2;
