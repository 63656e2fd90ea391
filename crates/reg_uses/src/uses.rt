//! The registers that an instruction uses.
ghost use Rattle.std.specs.Prelude.{◌≡◌, ℕ, ◌||◌, IfOk, OnOk};
ghost use Rattle.rtx_tree.specs.RegSet.{has_reg};
ghost use Rattle.reg_uses.specs.Effects as spec;
ghost use Rattle.reg_uses.specs.Uses as insns;

use crate::Regs;
use crate::reads::add_reads;
use plain_data::Memory;
use rtx_tree::{ArgUse, Code, Insn, Rtx};
use std::alloc::Global;

/// Adds what a `set` of a place reads besides its source: the address, where it is memory.
fn add_place_reads(place: &Rtx, regs: &mut Regs) -> Result<(), Memory>
    ensures { OnOk result ((reg : ℕ) →
        has_reg regs.new reg ≡ (has_reg regs.old reg || spec.place_reads reg place.now)) }
{
    match place.code {
        Code::Mem => add_reads(place, regs),
        _ => Ok(()),
    }
}

fn add_effect_uses(x: &Rtx, regs: &mut Regs) -> Result<(), Memory>
    ensures { OnOk result ((reg : ℕ) →
        has_reg regs.new reg ≡ (has_reg regs.old reg || spec.effect_uses reg x.now)) }
{
    match (x.code, x.kids.as_slice()) {
        (Code::Set, [place, source]) => {
            add_place_reads(place, regs)?;
            add_reads(source, regs)
        }
        (Code::Clobber, _) => Ok(()),
        _ => add_reads(x, regs),
    }
}

fn add_all_uses(effects: &[Rtx], regs: &mut Regs) -> Result<(), Memory>
    ensures { OnOk result ((reg : ℕ) →
        has_reg regs.new reg ≡ (has_reg regs.old reg || spec.all_use reg effects.now)) }
{
    for x in effects {
        add_effect_uses(x, regs)?;
    }
    Ok(())
}

fn add_pattern_uses(x: &Rtx, regs: &mut Regs) -> Result<(), Memory>
    ensures { OnOk result ((reg : ℕ) →
        has_reg regs.new reg ≡ (has_reg regs.old reg || spec.pattern_uses reg x.now)) }
{
    match x.code {
        Code::Parallel => add_all_uses(x.kids.as_slice(), regs),
        _ => add_effect_uses(x, regs),
    }
}

fn add_arguments(uses: &[ArgUse], regs: &mut Regs) -> Result<(), Memory>
    ensures { OnOk result ((reg : ℕ) →
        has_reg regs.new reg ≡ (has_reg regs.old reg || insns.has_argument reg uses.now)) }
{
    for argument in uses {
        regs.push(u32::from(argument.reg))?;
    }
    Ok(())
}

/// The registers that an instruction uses, but for what a return does.
pub fn insn_uses(alloc: Global, insn: &Insn) -> Result<Regs, Memory>
    ensures { IfOk result (λ regs. (reg : ℕ) → has_reg regs reg ≡ insns.insn_uses insn.now reg) }
{
    let mut regs = Regs::new(alloc);
    add_pattern_uses(&insn.pattern, &mut regs)?;
    add_arguments(insn.uses.as_slice(), &mut regs)?;
    Ok(regs)
}
