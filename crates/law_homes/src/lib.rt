//! What an instruction does where its registers have homes.
//!
//! There is no code here. `specs/Placed.antt` says what becomes of an instruction and of its
//! effects, `specs/Stands.antt` how a function whose registers have homes stands beside the
//! function with its pseudo registers, `specs/Kept.antt` what stays while it runs, and
//! `specs/Tame.antt` what its effects touch. The laws, in `proofs/`, are that the two stand beside
//! each other at entry (`Entry`), and behind each instruction where the function has a meaning: a
//! plain one (`Plain`), a jump, a label and a return (`Onward`), and a call with its reply
//! (`Calls`); that effects are tame (`Tamed`), and that tame effects leave what stays (`Staying`).
#![tactic(auto)]
