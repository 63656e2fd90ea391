//! What the types of every other crate are made of: [`Items`], a list whose value in contracts is
//! the list of its elements, so that a type which holds a list of itself is plain data and a copy
//! equals what it copies; and [`Memory`], the one error that says no more than that memory ran out.
#![tactic(auto)]

mod items;
mod memory;

pub use items::Items;
pub use memory::Memory;
