//! The windows of a description's forms: GCC Internals, "RTL to RTL Peephole Optimizers".
//!
//! Of the forms that put others in the place of a window of instructions [`next_window`] gives those
//! whose window may begin with an instruction, [`window_size`] how many instructions a form's window
//! has, [`has_shape`] whether it has the shape of instructions, for which nothing need be known of
//! them, and [`window_match`] the operands with which it matches, before its scratches are given
//! registers.
#![tactic(auto)]

mod window;

pub use window::{has_shape, next_window, window_match, window_size};
