//! When the lines and labels of a function do what the function does.
//!
//! There is no code here. `specs/Items.antt` says what stands for each place of a function: a
//! label, nothing, the line of a return, or lines that do what the instruction does, over the
//! registers that are live behind it. The law, `items_are_same_where_left` in `proofs/Left.antt`,
//! is that such items have the same behaviour as their function, as `specs/Left.antt` says it: from
//! every lawful start and in every lawful world, in each run that has a value, leaves what the
//! caller had in its registers as it found it, and never returns at the end of the chain.
#![tactic(auto)]
