//! What the symbolic state of instructions means.
//!
//! There is no code here. `specs/Needs.antt` says when a need is met by what registers, symbols and
//! memory are before the first instruction, `specs/Shows.antt` when a symbolic state shows a state
//! of a run, and `specs/Means.antt` when it tells what a window of instructions comes to. The laws,
//! in `proofs/`, are that the value of an expression is the number of its term where its needs are
//! met, and that there is none where they are not (`Values.antt`); that a window that comes to
//! something had its needs met, and one whose needs are met comes to what its state means
//! (`Runs.antt`); that it uses the registers that it needs (`Used.antt`); and that it defines those
//! that its state changes (`Kept.antt`).
#![tactic(auto)]
