//! What one instruction of RTL does.
//!
//! A [`State`] has what is known of each register, memory, and the calls so far. `step_insn` makes
//! one step of a function in it, and equals the definition of a step in `specs/`: the value of an
//! expression by its code, all effects after all values and addresses, jumps to their labels, and
//! calls by the replies of a world. Where a part has no value the step is undefined and changes
//! nothing.
#![tactic(auto)]

mod call;
mod effect;
mod expression;
mod jump;
mod regs;
mod step;

pub use call::{ArgValue, ArgValues, CallEvent, Calls, call_part, target_of};
pub use effect::{address_of, register_of};
pub use expression::{alone, counting, operator_of, relation_of, value, width_of};
pub use regs::{Known, Regs};
pub use step::{State, StepEnd, result_of, step_insn};
