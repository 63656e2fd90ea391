//! Expressions made simpler where another was put into them.
//!
//! Six rules are applied, the parts before the whole (`specs/Simple.antt`): an extension of a
//! constant is the constant; the constants of two sums are joined, in 64 signed bits; a sum with 0
//! is its other term; a comparison of a comparison with 0 is the inner one or its reverse; the low
//! part of an extension of a value of that mode is the value; and the constant of a sum, a product,
//! an and or an or stands second. [`simplify`] equals its definition, leaves nothing to which a rule
//! applies, and takes no memory. That the expression keeps its value is not said here: whoever
//! simplifies compares.
#![tactic(auto)]

mod rules;
mod simple;

pub use simple::simplify;
