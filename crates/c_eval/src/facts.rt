//! What is known besides the operands, where a condition is read.
use plain_data::Items;
use rtx_tree::RegSet;

/// The registers that are dead right before each instruction of a window, and last those that are
/// dead behind it.
pub type DeadTable = Items<RegSet>;

/// What is known besides the operands.
#[derive(Drop)]
pub struct Facts {
    /// Whether registers have been given homes: `reload_completed`.
    pub reloaded: bool,
    /// Whether pseudo registers may be made: `can_create_pseudo_p ()`.
    pub new_pseudos: bool,
    /// The registers that are dead, by their place in the window.
    pub dead: DeadTable,
}
