//! What a function of RTL means: the outcome of so many steps from a start in a world.
//!
//! `run_function` computes it, and equals the definition in `specs/`; `standing_after` computes what is
//! left of it where the calls are counted alone, and keeps no memory of any call. A run that goes on without
//! end takes jumps or makes calls without end: a contract says how often.
#![tactic(auto)]

mod outcome;
mod run;

pub use outcome::{Kept, Outcome, Standing};
pub use run::{run_function, standing_after};
