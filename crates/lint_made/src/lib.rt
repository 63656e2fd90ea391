//! What may stand in the places of a pattern's operands, and the operands that a choice makes.
//!
//! [`candidates_by`] gives what is tried in the place of a placeholder, by its code and mode: trees
//! with a slot for a register (`specs/Candidates.antt`), and [`tree_with`] the tree of one.
//! [`operands_by`] gives the operands of a pattern's placeholders, which [`givers`] gives, where
//! each has one of its candidates over one register, and what repeats an operand or is made of
//! others is whole (`specs/Made.antt`).
#![tactic(auto)]

mod candidate;
mod candidates;
mod made;
mod placeholders;
mod tree;

pub use candidate::Candidate;
pub use candidates::candidates_by;
pub use made::{operands_by, picks_in};
pub use placeholders::givers;
pub use tree::tree_with;
