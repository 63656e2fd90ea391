//! The functions of an input: its bytes, their reading, the rules and the limits.
//!
//! [`read_functions`] reads the bytes of an input as functions, [`check_functions`] checks the
//! rules of well-formed functions and the limits. What an input comes to is one relation, with a
//! last step over its functions as an argument (`specs/Input.antt`): each command over the
//! functions of an input gives its own last step, and both calls refuse as each such command is to
//! refuse. `specs/Refused.antt` says which function is refused, and why.
#![tactic(auto)]

mod checks;
mod reading;

pub use checks::{check_functions, next_number};
pub use reading::read_functions;
