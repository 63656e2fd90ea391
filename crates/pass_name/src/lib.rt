//! The passes over a function.
//!
//! A [`Pass`] has a name (`specs/Pass.antt`), and a [`Road`] its passes (`specs/Road.antt`). On the
//! usual road a function is read and lowered, pairs of its instructions are combined, it is split a
//! first time, reloaded, given its frame, split a second time, its windows are replaced by
//! peepholes, and it is written. Behind each of these but the last it can be shown. On another its
//! values are used again before pairs are combined; on a third its instructions are put in order
//! behind the peepholes.
#![tactic(auto)]

mod pass;
mod road;

pub use pass::Pass;
pub use road::Road;
