//! What is asked of each instruction of a function for which lines are to stand holds where a
//! sequence stands in a window's place.
//!
//! There is no code here. `law_lines_ready` says what is asked, and `law_window_made` what such a
//! window is. The laws are that an instruction that is made in the place of a placed one is placed
//! (`proofs/New.antt`), and so each instruction of the function (`Window.antt`).
#![tactic(auto)]
