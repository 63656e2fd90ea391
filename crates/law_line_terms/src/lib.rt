//! What the symbolic state of lines means.
//!
//! There is no code here. `specs/ShowsLine.antt` says when a symbolic state shows a machine. The
//! laws, in `proofs/`, are that a line goes on exactly where its needs are met, and that the
//! symbolic state after it then shows the machine after it.
#![tactic(auto)]
