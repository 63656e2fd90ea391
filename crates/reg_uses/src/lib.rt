//! Which registers an instruction uses, and which it defines.
//!
//! A `set`, in any mode, and a `clobber` define the register of their place; a call defines each
//! call-used register besides. All that an instruction reads it uses, addresses and a call's
//! arguments too. A return uses a0, where the function has a result, and those of `ra`, `sp` and
//! `s0` to `s11` that a `set` of the function sets. Register `zero` is neither used nor defined: it
//! keeps nothing. Each list has exactly the registers of its definition in `specs/`, in no order
//! and perhaps more than once. [`does_use`], [`does_define`] and [`does_read`] ask for one
//! register, and take no memory.
#![tactic(auto)]

mod asked;
mod defines;
mod reads;
mod returns;
mod uses;

pub use asked::{does_define, does_read, does_use};
pub use defines::insn_defines;
use plain_data::Items;
pub use reads::add_reads;
pub use returns::{any_insn_sets, is_return, return_uses};
pub use uses::insn_uses;

/// Registers by their numbers.
pub type Regs = Items<u32>;
