//! The stores of a window.
use plain_data::Items;
use term_tree::Measured;

/// A store: an address of 64 bits, and a value with the width that is stored.
#[derive(Drop)]
pub struct SymStore {
    pub address: Measured,
    pub value: Measured,
}

/// The stores so far, in order.
pub type SymStores = Items<SymStore>;
