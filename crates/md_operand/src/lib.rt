//! What operands are: the predicates that every description has, and the addresses of loads and
//! stores.
//!
//! [`BuiltIn`] names the predicates, [`BuiltIn::named`] finds one by its name, and [`BuiltIn::accepts`] says
//! which trees it accepts in a mode. The kinds of operands whatever their mode, as constraints ask
//! for them, are [`is_register`], [`is_memory`] and [`is_symbol`].
//! [`legitimate_address`], [`far_address`] and [`frame_reference`] are true exactly where an
//! expression is such an address, and [`is_far`] where it is memory at a far one, which a predicate
//! accepts but no load and no store reaches by itself. Each call gives what its definition in
//! `specs/Operand.antt` or `specs/Addresses.antt` gives, and takes no memory.
#![tactic(auto)]

mod addresses;
mod built_in;
mod kinds;

pub use addresses::{far_address, frame_reference, is_any_constant, legitimate_address};
pub use built_in::BuiltIn;
pub use kinds::{has_mode, is_far, is_memory, is_register, is_symbol};
