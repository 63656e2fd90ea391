//! How the operands of an instruction stand in an alternative of its form.
//!
//! [`Asked`] is an alternative with the operands of an instruction. [`Asked::fittings`] says of
//! each operand how it stands there (`specs/Fitting.antt`): it stays, stays at a far base, is tied
//! to another by its digits, or is moved; from this `reload_moves` tells what is moved once ties
//! are looked at. [`Asked::takes_register`] tells whether the constraint of an operand admits a
//! register that holds what is moved (`specs/Taken.antt`), and [`on_register`] gives an operand
//! with a register in its address (`specs/Addressed.antt`). Each gives exactly what its definition
//! gives, unless memory runs out.
#![tactic(auto)]

mod addressed;
mod asked;
mod standing;
mod taken;

pub use addressed::{address_on, on_register, slot_far};
pub use asked::Asked;
pub use standing::is_memory;
