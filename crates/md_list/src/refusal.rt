//! Why a description has no list.
use md_source::SourceRefusal;
use plain_data::Memory;
use thiserror::Error;

/// Why a description has no list.
#[derive(Debug, Drop, Error)]
pub enum ListRefusal {
    /// The description's files were refused.
    #[error("the files of the description were refused")]
    Source(SourceRefusal),
    /// The description has more than 20,000 forms.
    #[error("the description has too many forms")]
    Forms,
    /// Memory ran out.
    #[error("out of memory")]
    Memory,
}

impl From<Memory> for ListRefusal {
    ghost use Rattle.std.specs.Prelude.{◌≡◌};
    ghost use Rattle.md_list.specs.declared.refusal.ListRefusal.TheVariants as refusal;

    ghost from_gives = { λ _ e. e ≡ refusal.Memory };

    fn from(_e: Memory) -> ListRefusal {
        ListRefusal::Memory
    }
}
