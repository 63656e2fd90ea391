//! Instructions of the shapes that the plain forms match are within the table of codes, and of their
//! kind, whatever registers, memory, constants and symbols stand in the places of their operands.
//!
//! There is no code here. A tree within the table is put together of its parts (`proofs/Nodes.antt`);
//! the operands are such trees (`proofs/Leaves.antt`); so are instructions that set a place to a value
//! (`proofs/Sets.antt`) and those that lead elsewhere (`proofs/Leading.antt`).
#![tactic(auto)]
