//! The functions that are tried for a description.
//!
//! [`patterns_of`] gives the patterns of a shape of the plain profile that are tried: over registers,
//! memory and the constants at the ends of their ranges (`specs/Patterns.antt`). [`function_of`] is
//! a function with an instruction of such a pattern; [`keeping`] one that keeps more values over a
//! call than registers keep; and [`several`] one with some plain instructions
//! (`specs/Functions.antt`).
#![tactic(auto)]

mod function;
mod kept;
mod operand;
mod pattern;
mod sequence;

pub use function::function_of;
pub use kept::keeping;
pub use pattern::patterns_of;
pub use sequence::several;
