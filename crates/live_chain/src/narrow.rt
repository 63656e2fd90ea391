//! Registers whose numbers have 32 bits.
ghost use Rattle.std.specs.Prelude.{◌≡◌, ◌<◌, ◌^◌, ℕ, true, IfOk};
ghost use Rattle.rtx_tree.specs.declared.function.Function.{Function};
ghost use Rattle.rtx_tree.specs.RegSet.{has_reg};
ghost use Rattle.live.specs.Live.{AreLiveAfter, AreLiveRows};
ghost use Rattle.live_chain.specs.Narrow.{AreNarrow};

use crate::behind::row_after;
use gap_list::GapList;
use plain_data::Memory;
use reg_rows::RegRow;
use rtx_tree::{Insn, RegSet};
use std::alloc::Global;

/// The registers that are live after a place, by the rows of what is live. A chain of 2^32 places
/// or more finds no memory.
pub(crate) fn live_behind(
    alloc: Global,
    insns: &GapList<Insn>,
    rows: &GapList<RegRow>,
    place: u32,
) -> Result<RegSet, Memory>
    requires { AreNarrow rows.now }
    ensures live { (f : Function) → f.insns ≡ insns.now → AreLiveRows f rows.now →
        IfOk result (AreLiveAfter f place) }
    ensures small { IfOk result (λ live. (reg : ℕ) → has_reg live reg ≡ true → reg < 2 ^ 32) }
{
    if insns.len() > u32::MAX as usize {
        return Err(Memory);
    }
    let row = row_after(alloc, insns, rows, place)?;
    let live = RegSet::of_row(alloc, &row)?;
    // asked for what it tells of the order of the set
    let _first = live.contains(0);
    Ok(live)
}
