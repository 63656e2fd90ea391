//! What a form of a machine description emits.
//!
//! [`emit`] runs a form's preparation statements with operands and gives the instructions that come
//! of it: the moves that statements emitted, and behind them the form's patterns with the operands
//! put in, which `DONE` leaves out. `None` comes exactly where the form fails
//! (`specs/Emission.antt`, `specs/Statements.antt`, `specs/Values.antt`). Statements are run by a
//! stack of what is still to be done (`src/run.rt`), so that their nesting has no limit.
#![tactic(auto)]

mod draft;
mod emission;
mod layout;
mod plan;
mod run;
mod state;
mod values;

pub use emission::{Emission, emit};
