//! Why registers get no homes.
ghost use Rattle.std.specs.Prelude.{◌≡◌};

use plain_data::Memory;
use rtx_tree::{Name, Rtx};

/// Why a function isn't reloaded.
#[derive(Drop)]
pub enum ReloadRefusal {
    /// No form matches an instruction, as it stands with references to the frame put in, or a move.
    Unmatched { uid: u32, insn: Rtx },
    /// No enabled alternative of the first form that matches an instruction is reachable; the
    /// instruction is shown with its homes.
    Unsatisfied { uid: u32, form: Name, insn: Rtx },
    /// Memory ran out.
    Memory,
}

impl From<Memory> for ReloadRefusal {
    ghost use Rattle.std.specs.Prelude.{◌≡◌};
    ghost use Rattle.reload.specs.declared.refusal.ReloadRefusal.TheVariants as refusal;

    ghost from_gives = { λ _ e. e ≡ refusal.Memory };

    fn from(_e: Memory) -> ReloadRefusal {
        ReloadRefusal::Memory
    }
}
