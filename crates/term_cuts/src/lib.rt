//! Truncation and extension of terms that are in normal form already, and products and operators on
//! bits with masks.
//!
//! Truncation and extension go into the parts of a term, and what they make there is made by the
//! same rules; a mask of 8, 16 or 32 ones is an extension of a truncation. Each call gives the term
//! of its definition in `term_mean`, unless memory runs out.
#![tactic(auto)]

mod cuts;
mod extensions;
mod levels;

pub use cuts::{Makes, cut, one_copy, one_part};
pub use extensions::{extended, extended_by, extension_head};
pub use levels::{AtWidth, cut_to, low_8, made_8, made_at};
