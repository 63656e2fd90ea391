//! What is done with the operands of an instruction in each alternative of the form that it
//! matches, and the best of these.
//!
//! [`best_plan`] takes a form and an instruction that it matches, with homes put in, and gives the
//! plan of the alternative that costs least, of several such the one with the lowest number; `None`
//! comes exactly where no enabled alternative is reachable (`specs/Choice.antt`). A [`Plan`] says
//! which operands are moved into t3 to t6 and which share. [`insns_before`], [`insn_between`] and
//! [`insns_after`] give its instructions (`specs/Insns.antt`). That a plan is sound
//! (`specs/Sound.antt`) is all that meaning asks of it.
#![tactic(auto)]

mod choice;
mod cost;
mod given;
mod insns;
mod movable;
mod news;

pub use choice::best_plan;
pub use given::{Given, Plan};
pub use insns::{insn_between, insns_after, insns_before};
