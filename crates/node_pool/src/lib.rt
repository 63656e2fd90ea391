//! Values under ids, in slots that are used again.
//!
//! The free slots of a [`Pool`] form a list that runs through the slots themselves: each says which
//! free one is next. Room is made by [`Pool::reserve`] alone. While there is room, putting a value
//! in can't be refused, and nothing but `reserve` takes memory. Contracts see the list of the
//! slots' values, some of them missing (`specs/Slots.antt`): no slot is ever lost, since the spare
//! number counts all that hold nothing.
#![tactic(auto)]

mod id;
mod pool;
mod slot;

pub use id::Id;
pub use pool::Pool;
