//! Why trees are no description.
use plain_data::Memory;
use rtx_tree::Limit;
use thiserror::Error;

/// Why trees are no description.
#[derive(Debug, Drop, Error)]
pub enum DescRefusal {
    /// The trees make more forms than a description may have.
    #[error("the description has too many forms")]
    Limit {
        /// The limit that was passed.
        which: Limit,
        /// The count that passed it.
        count: u64,
    },
    /// Memory ran out.
    #[error("out of memory")]
    Memory,
}

impl From<Memory> for DescRefusal {
    ghost use Rattle.std.specs.Prelude.{◌≡◌};
    ghost use Rattle.tree_forms.specs.declared.refusal.DescRefusal.TheVariants as refusal;

    ghost from_gives = { λ _ e. e ≡ refusal.Memory };

    fn from(_e: Memory) -> DescRefusal {
        DescRefusal::Memory
    }
}
