//! Homes of pseudo registers.
use plain_data::Items;

/// Where a pseudo register lives.
#[derive(Clone, Copy)]
pub enum Home {
    /// In a hard register.
    Hard {
        /// The register's number.
        reg: u8,
    },
    /// In a slot of the frame.
    Slot,
}

/// A pseudo register with its home.
#[derive(Clone, Copy)]
pub struct HomeOf {
    /// The pseudo's number, from 0.
    pub pseudo: u32,
    /// The home of the pseudo register.
    pub home: Home,
}

/// A home for each pseudo of a function, in increasing number.
pub type Homes = Items<HomeOf>;
