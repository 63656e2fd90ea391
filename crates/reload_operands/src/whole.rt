//! What reload knows of a whole instruction.
ghost use Rattle.std.specs.Prelude.{◌≡◌, IfOk};
ghost use Rattle.reload_operands.specs.Changes as spec;

use plain_data::Memory;
use rtl_func::parallels_change_once;
use rtx_tree::Rtx;
use std::alloc::Global;

/// What is asked of an instruction of which a result is to be moved.
#[derive(Clone, Copy)]
pub struct Whole {
    /// Whether the instruction changes a register twice before homes are put in.
    pub twice_before: bool,
    /// Whether the instruction changes a register twice with its homes.
    pub twice_after: bool,
}

fn changes_twice(alloc: Global, insn: &Rtx) -> Result<bool, Memory>
    ensures { IfOk result (λ twice. twice ≡ spec.changes_twice insn.now) }
{
    let once = parallels_change_once(alloc, insn)?;
    Ok(!once)
}

/// What is asked of an instruction as a whole, as it is before and with its homes.
pub fn whole_of(alloc: Global, placed: &Rtx, with_homes: &Rtx) -> Result<Whole, Memory>
    ensures { IfOk result (λ whole. whole ≡ spec.whole_of placed.now with_homes.now) }
{
    Ok(Whole {
        twice_before: changes_twice(alloc, placed)?,
        twice_after: changes_twice(alloc, with_homes)?,
    })
}
