//! What windows ask for and what they define.
ghost use Rattle.std.specs.Prelude.{◌≡◌, ℕ, ◌||◌, ◌&&◌, not, true, false, IfOk, OnOk};
ghost use Rattle.rtx_tree.specs.RegSet.{has_reg};
ghost use Rattle.reg_rows.specs.Row.{has};
ghost use Rattle.reg_uses.specs.Uses as insns;
ghost use Rattle.live_chain.specs.machine.Window as spec;
ghost use Rattle.live_chain.specs.machine.Demand.{IsDemandOf, AreLikeLists};
ghost use Rattle.live_chain.specs.machine.Window.{IsAlike};

use plain_data::Memory;
use reg_rows::RegRow;
use reg_uses::{Regs, insn_defines, insn_uses};
use rtx_tree::Insn;
use std::alloc::Global;

/// The registers that a window uses before it defines them, and those that it defines, in no order
/// and perhaps more than once.
#[derive(Drop)]
pub struct Demand {
    pub asks: Regs,
    pub defines: Regs,
}

fn is_among(regs: &[u32], reg: u32) -> bool
    ensures { result ≡ has_reg regs.now reg }
{
    regs.iter().any(|r| *r == reg)
}

/// Adds those of some registers that are not among others.
fn add_but(regs: &mut Regs, more: &[u32], but: &[u32]) -> Result<(), Memory>
    ensures { OnOk result ((reg : ℕ) → has_reg regs.new reg ≡
        (has_reg regs.old reg || (has_reg more.now reg && not (has_reg but.now reg)))) }
{
    for reg in more {
        if !is_among(but, *reg) {
            regs.push(*reg)?;
        }
    }
    Ok(())
}

fn add_insn(alloc: Global, insn: &Insn, demand: &mut Demand) -> Result<(), Memory>
    ensures asks { OnOk result ((reg : ℕ) → has_reg demand.new.asks reg ≡
        (has_reg demand.old.asks reg ||
        (insns.insn_uses insn.now reg && not (has_reg demand.old.defines reg)))) }
    ensures defines { OnOk result ((reg : ℕ) → has_reg demand.new.defines reg ≡
        (has_reg demand.old.defines reg || insns.insn_defines insn.now reg)) }
{
    let uses = insn_uses(alloc, insn)?;
    add_but(&mut demand.asks, uses.as_slice(), demand.defines.as_slice())?;
    let defines = insn_defines(alloc, insn)?;
    add_but(&mut demand.defines, defines.as_slice(), &[])
}

/// What a window asks for and what it defines.
pub fn demand_of(alloc: Global, window: &[Insn]) -> Result<Demand, Memory>
    ensures { IfOk result (IsDemandOf window.now) }
{
    let mut demand = Demand {
        asks: Regs::new(alloc),
        defines: Regs::new(alloc),
    };
    for insn in window {
        add_insn(alloc, insn, &mut demand)?;
    }
    Ok(demand)
}

/// Adds those of some registers that are live behind, and are among neither of two lists.
fn add_live_but(
    regs: &mut Regs,
    more: &[u32],
    asks: &[u32],
    but: &[u32],
    behind: &RegRow,
) -> Result<(), Memory>
    ensures { OnOk result ((reg : ℕ) → has_reg regs.new reg ≡
        (has_reg regs.old reg || (has_reg more.now reg && (has behind.now reg &&
        (not (has_reg asks.now reg) && not (has_reg but.now reg)))))) }
{
    for reg in more {
        if behind.contains(*reg) && !is_among(asks, *reg) && !is_among(but, *reg) {
            regs.push(*reg)?;
        }
    }
    Ok(())
}

/// The registers in which two demands differ: one asks for them and the other does not, or one
/// defines them and the other does not, where neither asks for them and they are live behind.
fn differing(alloc: Global, old: &Demand, new: &Demand, behind: &RegRow) -> Result<Regs, Memory>
    ensures { IfOk result (λ differing. (reg : ℕ) → has_reg differing reg ≡ false →
        AreLikeLists old.now new.now (has behind.now) reg) }
{
    let mut regs = Regs::new(alloc);
    let (asks, asks_too) = (old.asks.as_slice(), new.asks.as_slice());
    let (defines, defines_too) = (old.defines.as_slice(), new.defines.as_slice());
    add_but(&mut regs, asks, asks_too)?;
    add_but(&mut regs, asks_too, asks)?;
    add_live_but(&mut regs, defines, asks, defines_too, behind)?;
    add_live_but(&mut regs, defines_too, asks, defines, behind)?;
    Ok(regs)
}

/// The registers in which two windows differ, where these are live behind them.
pub fn differing_between(
    alloc: Global,
    old: &[Insn],
    new: &[Insn],
    behind: &RegRow,
) -> Result<Regs, Memory>
    ensures { IfOk result (λ differing. (reg : ℕ) → has_reg differing reg ≡ false →
        IsAlike old.now new.now (has behind.now) reg) }
{
    let was = demand_of(alloc, old)?;
    let is = demand_of(alloc, new)?;
    differing(alloc, &was, &is, behind)
}
