//! The registers that a return uses.
ghost use Rattle.std.specs.Prelude.{◌≡◌, ℕ, ◌||◌, ◌&&◌, ◌==◌, IfOk, OnOk};
ghost use Rattle.std.specs.List.{list_any};
ghost use Rattle.rtx_tree.specs.RegSet.{has_reg};
ghost use Rattle.reg_uses.specs.Effects as spec;
ghost use Rattle.reg_uses.specs.Uses as insns;

use crate::Regs;
use crate::asked::place_is;
use plain_data::Memory;
use rtx_tree::{Code, Function, Insn, Rtx};
use rv_regs::kept_registers;
use std::alloc::Global;

fn effect_sets(x: &Rtx, reg: u32) -> bool
    ensures { result ≡ spec.effect_sets reg x.now }
{
    match (x.code, x.kids.as_slice()) {
        (Code::Set, [place, ..]) => place_is(place, reg),
        _ => false,
    }
}

fn any_sets(effects: &[Rtx], reg: u32) -> bool
    ensures { result ≡ list_any (spec.effect_sets reg) effects.now }
{
    effects.iter().any(|x| effect_sets(x, reg))
}

fn insn_sets(insn: &Insn, reg: u32) -> bool
    ensures { result ≡ insns.insn_sets reg insn.now }
{
    match insn.pattern.code {
        Code::Parallel => any_sets(insn.pattern.kids.as_slice(), reg),
        _ => effect_sets(&insn.pattern, reg),
    }
}

/// Whether one of some instructions sets a register.
pub fn any_insn_sets(chain: &[Insn], reg: u32) -> bool
    ensures { result ≡ list_any (insns.insn_sets reg) chain.now }
{
    chain.iter().any(|insn| insn_sets(insn, reg))
}

/// The register that holds a result: a0.
const RESULT: u32 = 10;

/// Adds the register of the function's result, if there is one.
fn add_result(f: &Function, regs: &mut Regs) -> Result<(), Memory>
    ensures { OnOk result ((reg : ℕ) →
        has_reg regs.new reg ≡ (has_reg regs.old reg || insns.is_result f.now reg)) }
{
    match f.result {
        None => Ok(()),
        Some(_) => regs.push(RESULT),
    }
}

fn add_if_set(f: &Function, kept: u8, regs: &mut Regs) -> Result<(), Memory>
    ensures { OnOk result ((reg : ℕ) →
        has_reg regs.new reg ≡ (has_reg regs.old reg ||
        (kept == reg && insns.function_sets f.now reg))) }
{
    let reg = u32::from(kept);
    if any_insn_sets(f.insns.as_slice(), reg) {
        regs.push(reg)
    } else {
        Ok(())
    }
}

fn add_those_set(f: &Function, all: &[u8], regs: &mut Regs) -> Result<(), Memory>
    ensures { OnOk result ((reg : ℕ) →
        has_reg regs.new reg ≡ (has_reg regs.old reg ||
        (has_reg all.now reg && insns.function_sets f.now reg))) }
{
    for kept in all {
        add_if_set(f, *kept, regs)?;
    }
    Ok(())
}

/// Whether an instruction returns.
pub fn is_return(insn: &Insn) -> bool
    ensures { result ≡ insns.is_return insn.now }
{
    matches!(insn.pattern.code, Code::Return)
}

/// The registers that a return of the function uses, and that its end does.
pub fn return_uses(alloc: Global, f: &Function) -> Result<Regs, Memory>
    ensures { IfOk result (λ regs. (reg : ℕ) → has_reg regs reg ≡ insns.return_uses f.now reg) }
{
    let mut regs = Regs::new(alloc);
    add_result(f, &mut regs)?;
    add_those_set(f, &kept_registers(), &mut regs)?;
    Ok(regs)
}
