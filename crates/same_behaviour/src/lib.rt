//! When lines of assembly do what a function of RTL does.
//!
//! There is no code here. `specs/Same.antt` defines same behaviour, over the run of a function and
//! the run of lines, for every lawful start and world (`specs/Lawful.antt`); `specs/Ending.antt`
//! says what labels may be numbered by. The laws in `proofs/` are those that every proof of same
//! behaviour asks: what the function sees of memory at entry, a register that is set, the texts of
//! labels, and places of a list.
#![tactic(auto)]
