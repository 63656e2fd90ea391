//! Which choices of candidates, which registers and which constants are tried for the operands of a
//! form.
//!
//! Operands and candidates are numbers here. Promised: [`changes_round`] gives the choices round one
//! that is given, in the order in which they are tried: itself, those where one operand has another
//! candidate, those where registers are shared, and those where two operands have others;
//! [`changes_searched`] gives those of them where all registers are apart. Both give 2,000 at most
//! (`specs/Changes.antt`). [`edges`] gives the places of a list at which a number is taken while one
//! beside it isn't, and those that are always tried where they are taken (`specs/Edges.antt`).
//! [`numbers_by`] gives the constants that are looked at by those that a description compares with,
//! and [`tried_numbers`] which of them are tried where an operand takes some (`specs/Numbers.antt`).
//! [`registers_apart`] gives the slots of operands registers, and [`registers_in`] those of a choice
//! (`specs/Registers.antt`).
#![tactic(auto)]

mod change;
mod changes;
mod edge;
mod numbers;
mod registers;

pub use change::{Change, Picked};
pub use changes::{changes_round, changes_searched};
pub use edge::edges;
pub use numbers::{numbers_by, tried_numbers, with_neighbours};
pub use registers::{registers_apart, registers_in, slot_register};
