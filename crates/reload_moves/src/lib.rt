//! What is moved, into which registers and in which order, as small data.
//!
//! A [`Fitting`] says how an operand of an instruction stands in an alternative: it stays, stays at
//! a far base, is tied to others by its digits, or is moved. [`parts_of`] settles what is moved and
//! what shares a register or a base (`specs/Moved.antt`), [`asks_of`] lists what asks for a
//! register, of which the k-th has t3 + k (`specs/Registers.antt`), and [`moves_before`] and
//! [`moves_after`] give the moves in order (`specs/Moves.antt`). Operands are named by their
//! places, and nothing here knows an expression. Each call gives exactly what its definition gives,
//! unless memory runs out.
#![tactic(auto)]

mod ask;
mod fitting;
mod led;
mod links;
mod moves;
mod moving;
mod part;
mod registers;
mod rows;

pub use ask::{Ask, What};
pub use fitting::{Digit, Fitting, Needs, Standing};
pub use led::led_from;
pub use links::parts_of;
pub use moves::Move;
pub use moving::{base_of, far_of, moves_after, moves_before, own_of};
pub use part::Part;
pub use registers::{asks_of, is_result};
pub use rows::is_marked;
