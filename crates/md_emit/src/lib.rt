//! What a description makes: which form splits an instruction, which has a standard name, and what
//! a form emits.
//!
//! [`split_of`] gives the first form from an index on whose split half matches an instruction,
//! [`named`] the first expander or instruction of a name, and [`emit`] what a form of the
//! description emits with operands (`gen_emit`). [`keeps_to_arguments`] tells whether a sequence
//! names no hard registers but those of arguments.
#![tactic(auto)]

mod arguments;
mod emitted;
mod names;
mod split;

pub use arguments::keeps_to_arguments;
pub use emitted::emit;
pub use names::named;
pub use split::split_of;
