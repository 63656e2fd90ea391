//! Functions and their image.
use plain_data::Items;
use rtx_tree::{Name, Symbols};
use rv_text::CodeItem;
use thiserror::Error;

/// The address of the first word.
pub const FIRST_ENTRY: u64 = 1_073_741_824;

/// A function: its name, and its lines and labels.
#[derive(Drop)]
pub struct CodeUnit {
    /// The name.
    pub name: Name,
    /// The lines and labels.
    pub items: Items<CodeItem>,
}

/// The image of some functions.
#[derive(Drop)]
pub struct Image {
    /// The words of the functions, one function behind the other.
    pub words: Items<u32>,
    /// The functions in their order, with their entries.
    pub entries: Symbols,
    /// The symbols that lines name and that are no function, with their addresses, in the order of
    /// the first lines that name them.
    pub outside: Symbols,
}

/// Why functions have no image.
#[derive(Clone, Copy, Debug, Error)]
pub enum AssembleRefusal {
    /// The image has too many bytes.
    #[error("limit Image: {size}")]
    Limit {
        /// How many.
        size: u64,
    },
    /// Memory ran out.
    #[error("out of memory")]
    Memory,
}

impl From<plain_data::Memory> for AssembleRefusal {
    ghost use Rattle.std.specs.Prelude.{◌≡◌};
    ghost use Rattle.rv_image.specs.declared.image.AssembleRefusal.TheVariants as refusal;

    ghost from_gives = { λ _ e. e ≡ refusal.Memory };

    fn from(_e: plain_data::Memory) -> AssembleRefusal {
        AssembleRefusal::Memory
    }
}
