//! When a function whose registers have homes does what the function with its pseudo registers
//! does.
//!
//! There is no code here. `specs/Keeps.antt` says when a function keeps its runs under homes, in a
//! frame that others make and leave, and when it does so with a frame of its own;
//! `specs/Steps.antt` what it has to do beside each step, and `specs/Homes.antt` what is asked of
//! homes. The laws, in `proofs/`, are that it keeps them where it does so (`Induction`, `Law`);
//! that it does so where there stands in the place of each instruction what does the same
//! (`Windows`, `Local`, `Whole`), as a label does, a use that stands alone, and an instruction
//! between moves that lead to what they should (`Alone`, `Moved`, `Chain`, `Reloading`); that what
//! can be reloaded can have homes put in (`Placeable`, `EffectsKeep`); and that homes and a frame
//! are composed (`Saved`, `Composing`).
#![tactic(auto)]
