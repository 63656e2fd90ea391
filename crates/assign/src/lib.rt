//! Where each pseudo register of a function lives, and the layout of its frame.
//!
//! [`assign`] takes the pseudos in increasing number; each gets the first register of the
//! allocation order with which and with whose earlier holders it does not conflict, else a slot. So
//! no two registers that share a home conflict, and a pseudo is in a slot only where each register
//! of the order is taken; a function has only one such list of homes. [`layout`] gives the frame
//! its size, and the saved registers and the slots their offsets: each has 8 aligned bytes to
//! itself, within the frame and below the locals. Memory aside, both give exactly what their
//! definitions say.
#![tactic(auto)]

mod assigned;
mod frame;
mod home;
mod named;
mod pick;
mod places;

pub use assigned::assign;
pub use frame::layout;
pub use home::{Home, HomeOf, Homes};
pub use places::{Layout, SavedAt, SavedPlaces, SlotAt, SlotPlaces};
