//! Why a description was not expanded.
use plain_data::Memory;
use thiserror::Error;

/// Why a description was not expanded.
#[derive(Clone, Copy, Debug, Error)]
pub enum IterRefusal {
    /// There are more than 20,000 forms. This tree, counted from 0, is the one that passes that
    /// number.
    #[error("too many forms")]
    Limit { form: u32 },
    #[error("out of memory")]
    Memory,
}

impl From<Memory> for IterRefusal {
    ghost use Rattle.std.specs.Prelude.{◌≡◌};
    ghost use Rattle.md_iter.specs.declared.refusal.IterRefusal.TheVariants as refusal;

    ghost from_gives = { λ _ e. e ≡ refusal.Memory };

    fn from(_e: Memory) -> IterRefusal {
        IterRefusal::Memory
    }
}
