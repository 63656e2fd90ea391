//! Why a pass goes no further.
ghost use Rattle.std.specs.Prelude.{◌≡◌, IfOk};
ghost use Rattle.pass_refusal.specs.Refused as spec;

use plain_data::Memory;
use rtx_tree::{Insn, Limit, Name, Rtx};
use std::alloc::Global;
use term_text::Item;

/// Why a pass goes no further with a function.
#[derive(Drop)]
pub enum PassRefusal {
    /// No form counts for an instruction.
    Unmatched {
        uid: u32,
        insn: Rtx,
    },
    /// Instructions and what would stand in their place by a rule are not equated: the first item
    /// that fails, with both terms.
    NotEquated {
        uid: u32,
        rule: Name,
        item: Item,
        left: Name,
        right: Name,
    },
    /// A counted quantity passes its number.
    Limit {
        which: Limit,
        count: u64,
    },
    /// Memory ran out.
    Memory,
}

impl From<Memory> for PassRefusal {
    ghost use Rattle.std.specs.Prelude.{◌≡◌};
    ghost use Rattle.pass_refusal.specs.declared.refusal.PassRefusal.TheVariants as refusal;

    ghost from_gives = { λ _ e. e ≡ refusal.Memory };

    fn from(_e: Memory) -> PassRefusal {
        PassRefusal::Memory
    }
}

/// The refusal of an instruction for which no form counts.
pub fn unmatched(alloc: Global, insn: &Insn) -> Result<PassRefusal, Memory>
    ensures { IfOk result (λ e. e ≡ spec.unmatched_insn insn.now) }
{
    Ok(PassRefusal::Unmatched {
        uid: insn.uid,
        insn: insn.pattern.copy(alloc)?,
    })
}
