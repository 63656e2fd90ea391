//! Why instructions or lines have no symbolic state.
use plain_data::Memory;
use thiserror::Error;

/// Why a side of a comparison has no symbolic state.
#[derive(Debug, Drop, Error)]
pub enum SymRefusal {
    /// The instruction or line at a place, counted from 0, can't be compared.
    #[error("what stands at {index} can't be compared")]
    Shape { index: u32 },
    /// A term of a state that is met has more nodes than the limit, or more levels; `size` is one
    /// more than the limit of nodes.
    #[error("a term has {size} nodes or more")]
    Size { size: u64 },
    /// Memory ran out.
    #[error("out of memory")]
    Memory,
}

impl From<Memory> for SymRefusal {
    ghost use Rattle.std.specs.Prelude.{◌≡◌};
    ghost use Rattle.sym_state.specs.declared.refusal.SymRefusal.TheVariants.{Memory as OutOfMemory};

    ghost from_gives = { λ e r. r ≡ OutOfMemory };

    fn from(_e: Memory) -> SymRefusal {
        SymRefusal::Memory
    }
}
