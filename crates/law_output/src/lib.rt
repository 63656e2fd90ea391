//! What is written of a function does what the function does.
//!
//! There is no code here. The law, in `proofs/Written.antt`, is that the items which `asm_out`
//! writes for a function have the function's behaviour, in each run that leaves what the caller had
//! in its registers and never returns at the end of the chain: what is equated at each place does
//! the same, `specs/Ready.antt` says what is asked of each instruction, and from windows to the
//! function goes the law of `law_window_lines`.
#![tactic(auto)]
