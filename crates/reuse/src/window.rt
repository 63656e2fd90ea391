//! A window, compared with itself with another last.
ghost use Rattle.std.specs.Prelude.{◌≡◌, ◌<◌, ◌≤◌, ◌^◌, ◌||◌, ◌==◌, ℕ, true, false, length, IfOk, OnOk};
ghost use Rattle.rtx_tree.specs.RegSet.{has_reg};
ghost use Rattle.law_window_runs.specs.Uses.{window_defines};
ghost use Rattle.equate.specs.Side as sides;
ghost use Rattle.equate.specs.Views.{side_of};
ghost use Rattle.equate.specs.Equated.{Equated};
ghost use Rattle.reuse.specs.Reuse as spec;
ghost use Rattle.reuse.specs.machine.Found as found;

use equate::{Side, Verdict, equate};
use live_chain::LiveChain;
use plain_data::{Items, Memory};
use reg_uses::insn_defines;
use rtx_tree::{Insn, Insns, RegSet, copy_insns};
use std::alloc::Global;
use sym_term::TermRefusal;

/// Puts registers into a set.
fn add_all(regs: &[u32], to: &mut RegSet) -> Result<(), Memory>
    ensures { OnOk result ((reg : ℕ) →
        has_reg to.new reg ≡ (has_reg to.old reg || has_reg regs.now reg)) }
{
    for reg in regs {
        to.insert(*reg)?;
    }
    Ok(())
}

/// Register 0, and those that some instructions define.
fn defined_in(alloc: Global, insns: &[Insn]) -> Result<RegSet, Memory>
    ensures { IfOk result (λ regs. (reg : ℕ) →
        has_reg regs reg ≡ (reg == 0 || window_defines insns.now reg)) }
{
    let mut regs = RegSet::new(alloc);
    regs.insert(0)?;
    for insn in insns {
        add_all(insn_defines(alloc, insn)?.as_slice(), &mut regs)?;
    }
    Ok(regs)
}

/// Instructions with another last.
fn with_last(alloc: Global, insns: &[Insn], new: &Insn) -> Result<Insns, Memory>
    ensures { IfOk result (λ copies. copies ≡ found.last_put new.now insns.now) }
{
    let Some((_, before)) = insns.split_last() else {
        return Ok(Items::new(alloc));
    };
    let mut copies = copy_insns(alloc, before)?;
    copies.push(new.copy(alloc)?)?;
    Ok(copies)
}

/// Whether instructions are equated with others over some registers. Where a term is too large they
/// are not.
fn is_same(alloc: Global, old: &[Insn], side: &Side, live: &RegSet) -> Result<bool, Memory>
    requires before { length old.now < 2 ^ 32 }
    requires after { sides.side_length (side_of side.now) < 2 ^ 32 }
    ensures same { IfOk result (λ same. same ≡ true →
        Equated old.now (side_of side.now) live.now) }
    ensures other { IfOk result (λ same. same ≡ false →
        Equated old.now (side_of side.now) live.now → ⊥) }
{
    match equate(alloc, old, side, live) {
        Ok(Verdict::Same) => Ok(true),
        Ok(_) => Ok(false),
        Err(TermRefusal::Size { .. }) => Ok(false),
        Err(TermRefusal::Memory) => Err(Memory),
    }
}

/// Whether a window is equated over every register with itself with another last.
fn is_equated(alloc: Global, window: &[Insn], new: &Insn) -> Result<bool, Memory>
    requires { length window.now < 2 ^ 32 }
    ensures all { IfOk result (λ same. same ≡ true →
        spec.EquatedOverAll window.now (found.last_put new.now window.now)) }
    ensures none { IfOk result (λ same. same ≡ false →
        spec.EquatedOverAll window.now (found.last_put new.now window.now) → ⊥) }
{
    let mut regs = defined_in(alloc, window)?;
    add_all(insn_defines(alloc, new)?.as_slice(), &mut regs)?;
    let side = Side::Insns {
        insns: with_last(alloc, window, new)?,
    };
    is_same(alloc, window, &side, &regs)
}

/// Whether the window from one place up to another is equated over every register with itself with
/// another last.
pub fn is_put(
    alloc: Global,
    chain: &mut LiveChain,
    first: u32,
    end: u32,
    new: &Insn,
) -> Result<bool, Memory>
    requires order { first < end }
    requires within { end ≤ length chain.old.insns }
    ensures all { IfOk result (λ same. same ≡ true →
        found.IsPutLast chain.old first end new.now) }
    ensures none { IfOk result (λ same. same ≡ false →
        found.IsPutLast chain.old first end new.now → ⊥) }
    ensures same { chain.new ≡ chain.old }
{
    // with the gap at its end the window is lent
    chain.move_gap(end)?;
    let window = chain.window(alloc, first, end)?;
    is_equated(alloc, window.as_slice(), new)
}
