//! Why the trees of a description were not gathered.
use plain_data::Memory;
use rtx_tree::{Name, Place};
use thiserror::Error;

/// Why the trees of a description were not gathered.
#[derive(Debug, Drop, Error)]
pub enum SourceRefusal {
    /// A file is no text. The place ends the longest prefix of it that begins a text.
    #[error("syntax")]
    Syntax { file: Name, place: Place },
    /// A file has a list or a vector within 200 that are open.
    #[error("too deep")]
    Depth,
    /// The description has more than 16,777,216 bytes with all its includes.
    #[error("too long")]
    Text,
    /// A file is included within 16 others.
    #[error("too many files within each other")]
    Include,
    /// The files failed.
    #[error("read fault")]
    ReadFault,
    /// Memory ran out.
    #[error("out of memory")]
    Memory,
}

impl From<Memory> for SourceRefusal {
    ghost use Rattle.std.specs.Prelude.{◌≡◌};
    ghost use Rattle.md_source.specs.declared.refusal.SourceRefusal.TheVariants as refusal;

    ghost from_gives = { λ _ e. e ≡ refusal.Memory };

    fn from(_e: Memory) -> SourceRefusal {
        SourceRefusal::Memory
    }
}
