//! Why trees are not functions of the language.
use plain_data::Memory;
use rtx_tree::{Name, Place};
use thiserror::Error;

/// Why trees were not read.
#[derive(Debug, Drop, Error)]
pub enum RtlRefusal {
    /// A tree outside the language: the place of its first byte, and the first atom in it, or `-`.
    #[error("construct")]
    Construct { place: Place, name: Name },
    #[error("out of memory")]
    Memory,
}

impl From<Memory> for RtlRefusal {
    ghost use Rattle.std.specs.Prelude.{◌≡◌};
    ghost use Rattle.lisp_read.specs.declared.refusal.RtlRefusal.TheVariants as refusal;

    ghost from_gives = { λ _ e. e ≡ refusal.Memory };

    fn from(_e: Memory) -> RtlRefusal {
        RtlRefusal::Memory
    }
}
