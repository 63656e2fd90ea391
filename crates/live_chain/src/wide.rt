//! Windows, made wider to the front until they ask alike.
ghost use Rattle.std.specs.Prelude.{◌≡◌, ℕ, ◌≤◌, ◌||◌, ◌&&◌, not, length, IfOk, IfSome};
ghost use Rattle.rtx_tree.specs.RegSet.{has_reg};
ghost use Rattle.reg_uses.specs.Uses as insns;
ghost use Rattle.live_chain.specs.machine.Window.{IsBlockTo};

use crate::window::passes;
use gap_list::GapList;
use plain_data::Memory;
use reg_uses::{Regs, does_define, does_use};
use rtx_tree::Insn;
use std::alloc::Global;

/// Whether an instruction uses a register or defines it.
fn is_named(insn: &Insn, reg: u32) -> bool
    ensures { result ≡ (insns.insn_uses insn.now reg || insns.insn_defines insn.now reg) }
{
    does_use(insn, reg) || does_define(insn, reg)
}

/// Those of some registers that an instruction neither uses nor defines.
fn unnamed(alloc: Global, insn: &Insn, regs: &[u32]) -> Result<Regs, Memory>
    ensures { IfOk result (λ left. (reg : ℕ) → has_reg left reg ≡ (has_reg regs.now reg &&
        not (insns.insn_uses insn.now reg || insns.insn_defines insn.now reg))) }
{
    let mut left = Regs::new(alloc);
    for reg in regs {
        if !is_named(insn, *reg) {
            left.push(*reg)?;
        }
    }
    Ok(left)
}

/// The last place from which on each of some registers is used or defined in front of a place, if
/// all that stands between only passes on.
pub fn block_to(
    alloc: Global,
    insns: &GapList<Insn>,
    first: u32,
    regs: Regs,
) -> Result<Option<u32>, Memory>
    requires { first ≤ length insns.now }
    ensures { IfOk result (λ from. IfSome from (λ from. IsBlockTo insns.now from first regs)) }
{
    let mut left = regs;
    let mut from = first;
    while !left.is_empty() {
        if from == 0 {
            return Ok(None);
        }
        let insn = insns.item(from as usize - 1);
        if !passes(insn) {
            return Ok(None);
        }
        left = unnamed(alloc, insn, left.as_slice())?;
        from -= 1;
    }
    Ok(Some(from))
}
