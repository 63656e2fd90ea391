//! Registers that are asked for behind two windows, whichever of them stands.
ghost use Rattle.std.specs.Prelude.{◌≡◌, ℕ, ◌≤◌, ◌<◌, ◌^◌, ◌&&◌, not, true, length, slice_range, IfOk};
ghost use Rattle.std.specs.List.{list_all};
ghost use Rattle.rtx_tree.specs.RegSet.{has_reg};
ghost use Rattle.live_chain.specs.machine.Window as spec;

use crate::window::{all_pass, is_inner, passes};
use gap_list::GapList;
use plain_data::Memory;
use reg_uses::{Regs, does_define, does_use};
use rtx_tree::Insn;
use std::alloc::Global;

/// So many places behind a window are looked at.
const MOST_BEHIND: usize = 64;

/// The place up to which what stands from one on, so far as it is looked at, leads on from each
/// instruction to the next alone.
fn passing_to(insns: &GapList<Insn>, end: u32) -> u32
    requires within { end ≤ length insns.now }
    requires short { length insns.now < 2 ^ 32 }
    ensures order { end ≤ result }
    ensures within { result ≤ length insns.now }
    ensures passing { list_all spec.passes (slice_range insns.now end result) ≡ true }
{
    let most = insns.len().min(end as usize + MOST_BEHIND);
    let mut to = end;
    while (to as usize) < most {
        if !passes(insns.item(to as usize)) {
            return to;
        }
        to += 1;
    }
    to
}

/// The place up to which what stands from one on, so far as it is looked at, is left at its end
/// alone, by no return, and entered at its beginning alone: the jump at the end of a block is seen
/// too.
#[tactic(auto, using(crate::proofs::TailLaws::leads_more, crate::proofs::TailLaws::leads_passing))]
fn leading_to(insns: &GapList<Insn>, end: u32) -> u32
    requires within { end ≤ length insns.now }
    requires short { length insns.now < 2 ^ 32 }
    ensures order { end ≤ result }
    ensures within { result ≤ length insns.now }
    ensures leading { spec.leads_last (slice_range insns.now end result) ≡ true }
{
    let to = passing_to(insns, end);
    if to as usize >= insns.len() {
        return to;
    }
    if is_inner(insns.item(to as usize)) {
        to + 1
    } else {
        to
    }
}

/// The place behind what stands behind two windows and is entered from each of them alone.
pub fn tail_end(insns: &GapList<Insn>, end: u32, old: &[Insn], new: &[Insn]) -> u32
    requires within { end ≤ length insns.now }
    requires short { length insns.now < 2 ^ 32 }
    ensures order { end ≤ result }
    ensures within { result ≤ length insns.now }
    ensures tail { spec.IsTailOf old.now new.now (slice_range insns.now end result) }
{
    if all_pass(old) && all_pass(new) {
        leading_to(insns, end)
    } else {
        end
    }
}

/// Whether what stands from one place up to another asks for a register.
fn is_asked(insns: &GapList<Insn>, from: u32, to: u32, reg: u32) -> bool
    requires order { from ≤ to }
    requires within { to ≤ length insns.now }
    ensures { result ≡ spec.asks_for (slice_range insns.now from to) reg }
{
    let mut place = from;
    while place < to {
        let insn = insns.item(place as usize);
        if does_use(insn, reg) {
            return true;
        }
        if does_define(insn, reg) {
            return false;
        }
        place += 1;
    }
    false
}

/// Whether an instruction of a window defines a register.
fn any_defines(window: &[Insn], reg: u32) -> bool
    ensures { result ≡ spec.defines_in window.now reg }
{
    window.iter().any(|insn| does_define(insn, reg))
}

/// Whether two windows leave a register alone, and what stands behind them up to a place asks for
/// it.
fn is_settled(
    insns: &GapList<Insn>,
    end: u32,
    to: u32,
    old: &[Insn],
    new: &[Insn],
    reg: u32,
) -> bool
    requires order { end ≤ to }
    requires within { to ≤ length insns.now }
    ensures { result ≡ spec.is_settled old.now new.now (slice_range insns.now end to) reg }
{
    !any_defines(old, reg) && !any_defines(new, reg) && is_asked(insns, end, to, reg)
}

/// Those of some registers of which that doesn't hold.
pub fn unsettled(
    alloc: Global,
    insns: &GapList<Insn>,
    end: u32,
    to: u32,
    old: &[Insn],
    new: &[Insn],
    regs: &[u32],
) -> Result<Regs, Memory>
    requires order { end ≤ to }
    requires within { to ≤ length insns.now }
    ensures { IfOk result (λ left. (reg : ℕ) → has_reg left reg ≡ (has_reg regs.now reg &&
        not (spec.is_settled old.now new.now (slice_range insns.now end to) reg))) }
{
    let mut left = Regs::new(alloc);
    for reg in regs {
        if !is_settled(insns, end, to, old, new, *reg) {
            left.push(*reg)?;
        }
    }
    Ok(left)
}
