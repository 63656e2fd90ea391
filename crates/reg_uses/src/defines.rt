//! The registers that an instruction defines.
ghost use Rattle.std.specs.Prelude.{◌≡◌, ℕ, ◌||◌, ◌&&◌, ◌==◌, IfOk, OnOk};
ghost use Rattle.rtx_tree.specs.RegSet.{has_reg};
ghost use Rattle.rtx_tree.specs.Registers.{is_call_used};
ghost use Rattle.reg_uses.specs.Effects as spec;
ghost use Rattle.reg_uses.specs.Uses as insns;

use crate::Regs;
use crate::reads::add_place;
use plain_data::Memory;
use rtx_tree::{Code, HARD_REGS, Insn, Kind, Rtx, reg_call_used};
use std::alloc::Global;

fn add_effect_defines(x: &Rtx, regs: &mut Regs) -> Result<(), Memory>
    ensures { OnOk result ((reg : ℕ) →
        has_reg regs.new reg ≡ (has_reg regs.old reg || spec.effect_defines reg x.now)) }
{
    match (x.code, x.kids.as_slice()) {
        (Code::Set | Code::Clobber, [place, ..]) => add_place(place, regs),
        _ => Ok(()),
    }
}

fn add_all_defines(effects: &[Rtx], regs: &mut Regs) -> Result<(), Memory>
    ensures { OnOk result ((reg : ℕ) →
        has_reg regs.new reg ≡ (has_reg regs.old reg || spec.all_define reg effects.now)) }
{
    for x in effects {
        add_effect_defines(x, regs)?;
    }
    Ok(())
}

fn add_pattern_defines(x: &Rtx, regs: &mut Regs) -> Result<(), Memory>
    ensures { OnOk result ((reg : ℕ) →
        has_reg regs.new reg ≡ (has_reg regs.old reg || spec.pattern_defines reg x.now)) }
{
    match x.code {
        Code::Parallel => add_all_defines(x.kids.as_slice(), regs),
        _ => add_effect_defines(x, regs),
    }
}

fn add_if_call_used(reg: u8, regs: &mut Regs) -> Result<(), Memory>
    ensures { OnOk result ((other : ℕ) →
        has_reg regs.new other ≡ (has_reg regs.old other || (other == reg && is_call_used other))) }
{
    if reg_call_used(reg) {
        regs.push(u32::from(reg))
    } else {
        Ok(())
    }
}

fn add_call_used(regs: &mut Regs) -> Result<(), Memory>
    ensures { OnOk result ((reg : ℕ) →
        has_reg regs.new reg ≡ (has_reg regs.old reg || is_call_used reg)) }
{
    for reg in 0..HARD_REGS {
        add_if_call_used(reg, regs)?;
    }
    Ok(())
}

fn add_call_defines(kind: Kind, regs: &mut Regs) -> Result<(), Memory>
    ensures { OnOk result ((reg : ℕ) →
        has_reg regs.new reg ≡ (has_reg regs.old reg ||
        (insns.is_call_kind kind && is_call_used reg))) }
{
    match kind {
        Kind::Call => add_call_used(regs),
        Kind::Plain | Kind::Jump | Kind::Label | Kind::Barrier => Ok(()),
    }
}

/// The registers that an instruction defines.
pub fn insn_defines(alloc: Global, insn: &Insn) -> Result<Regs, Memory>
    ensures { IfOk result (λ regs. (reg : ℕ) → has_reg regs reg ≡ insns.insn_defines insn.now reg) }
{
    let mut regs = Regs::new(alloc);
    add_pattern_defines(&insn.pattern, &mut regs)?;
    add_call_defines(insn.kind, &mut regs)?;
    Ok(regs)
}
