//! Matches patterns of a machine description with expressions, and makes expressions of patterns:
//! GCC Internals, "RTL Template".
//!
//! [`match_shapes`] gives the operands with which some patterns, which share them, are some
//! expressions, one each, predicates aside, or `None` exactly where there are none such; a match
//! has one list of operands. [`match_shape`] is its case of one. [`instantiate`] puts operands into
//! a pattern, and gives `None` exactly where one that the pattern names is missing. Each is the
//! inverse of the other: what is matched is instantiated back, and what is instantiated, with
//! operands that are only those that the pattern gives and as its placeholders ask, is matched with
//! the same operands. [`giver`] is the placeholder that gives an operand. `specs/Pattern.antt` says
//! what a pattern makes of operands, `specs/Match.antt` when patterns match.
//!
//! A pattern's dups may stand in front of the operand that they repeat. A call goes as deep as the
//! pattern. [`Steps`] counts the calls of [`match_shapes`] for whoever wants to bound them.
#![tactic(auto)]

mod collect;
mod givers;
mod instance;
mod makes;
mod matching;
mod role;
mod steps;

pub use givers::{giver, giver_among};
pub use instance::{copy_of, instances, instantiate};
pub use matching::{match_shape, match_shapes};
pub use role::{Role, gives, operand_of, role_of};
pub use steps::Steps;
