//! Instruction combination: pairs of instructions become one, until none is left.
//!
//! `specs/Combine.antt` says which pair is next and what comes of it. [`combine`] looks at the
//! seconds of pairs from the left. Behind a pair that was combined it goes on with the place of its
//! first, where the registers that are live in front of it stayed the same: no pair in front of it
//! can be combined that could not before. Else it begins anew. [`combine_chain`] does so in a chain,
//! which is as some whole number of steps leaves it even where memory runs out.
#![tactic(auto)]

mod link;
mod made;
mod pass;
mod search;
mod shallow;
mod window;

pub use pass::{combine, combine_chain};
