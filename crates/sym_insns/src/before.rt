//! What is known before an instruction.
use std::alloc::Global;
use sym_state::SymRegs;
use sym_term::SymStores;

/// What stands before an instruction: what its terms are made by.
#[derive(Drop)]
pub struct Before<'a> {
    /// Where terms are made.
    pub alloc: Global,
    /// The registers that were changed.
    pub regs: &'a SymRegs,
    /// The stores, in order.
    pub stores: &'a SymStores,
}
