//! The jobs of a region: of plain instructions that are put in order together.
//!
//! A region begins where instructions do that no region has yet, and goes on up to a label, a jump, a
//! call or a barrier, with so many instructions at most ([`region_length`], `specs/Region.antt`). The
//! job of an instruction takes units in the ways of its reservation, and asks of each instruction in
//! front of it on which it depends that the weight of that lies between both ([`asks_of`],
//! `specs/Jobs.antt`). In whatever order these jobs come, that holds of the instructions
//! (`specs/Kept.antt`, `proofs/KeptLaws.antt`).
#![tactic(auto)]

mod asks;
mod region;
mod taken;

pub use asks::asks_of;
pub use region::{is_plain, region_length};
pub use taken::Taken;
