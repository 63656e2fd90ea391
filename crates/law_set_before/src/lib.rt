//! An instruction, and two in its place of which the first sets a register that nothing behind looks at.
//!
//! There is no code here. The law is `specs/Before.antt`'s: if the second does then what the one does
//! alone, and needs no more, the two are equated with the one.
#![tactic(auto)]
