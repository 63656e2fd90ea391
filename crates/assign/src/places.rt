//! Where everything in a frame stands.
use plain_data::Items;

/// A saved register with its offset from the lowered stack pointer.
#[derive(Clone, Copy)]
pub struct SavedAt {
    /// The register's number.
    pub reg: u8,
    /// The offset.
    pub offset: u64,
}

/// The saved registers, in the order in which they are stored.
pub type SavedPlaces = Items<SavedAt>;

/// A pseudo's slot with its offset from the lowered stack pointer.
#[derive(Clone, Copy)]
pub struct SlotAt {
    /// The pseudo's number, from 0.
    pub pseudo: u32,
    /// The offset.
    pub offset: u64,
}

/// The slots, in increasing number of their pseudos.
pub type SlotPlaces = Items<SlotAt>;

/// Where everything in a frame stands.
#[derive(Drop)]
pub struct Layout {
    /// By how much the stack pointer is lowered.
    pub size: u64,
    /// The slots.
    pub slots: SlotPlaces,
    /// The saved registers.
    pub saved: SavedPlaces,
}
