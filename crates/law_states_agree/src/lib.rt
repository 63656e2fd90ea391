//! What the agreement of symbolic states means.
//!
//! There is no code here. The law, in `proofs/`, is that lines whose symbolic state agrees with
//! that of instructions, over the registers that are live behind them, do what the instructions do.
#![tactic(auto)]
