//! What passes leave of a function so that lines can stand for it, and so that it can be reloaded.
//!
//! There is no code here. `specs/Ready.antt` says what lines ask of an instruction, by itself; so a
//! pass that puts instructions in the place of others has to show it of the new ones alone. A
//! function that keeps the rules has it. `specs/Reloadable.antt` says what holds of each
//! instruction before registers have homes, and `specs/Left.antt` what no pass changes.
#![tactic(auto)]
