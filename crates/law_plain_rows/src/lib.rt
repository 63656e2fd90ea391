//! The plain rows that compute on registers and constants.
//!
//! There is no code here. A row is an operation with its operands, and the one line or two that a
//! plain form prints for it. Each of these laws is that the row's lines are equated with each of its
//! instructions, over all registers and constants and whatever is live behind them: what they leave
//! in the register is what the instruction sets, they need no more than it does, and all terms are
//! within the limit of a comparison.
#![tactic(auto)]
