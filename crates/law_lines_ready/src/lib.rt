//! What is asked of each instruction of a function for which lines are to stand, and that it holds
//! through the passes behind the first split.
//!
//! There is no code here. `specs/Placed.antt` says what is asked of an instruction whose registers
//! may have homes already; what its lines ask says `law_output`. The laws, in `proofs/`, are that a
//! function that can be reloaded has the first (`Sound`), that it is kept where registers get their
//! homes (`Reloaded`), where a function gets its frame (`Framed`) and where instructions are split
//! after that (`Split`), and that it gives the second (`Written`) and what the passes ask
//! (`Given`).
#![tactic(auto)]
