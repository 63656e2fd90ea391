//! The registers that trees read, and those of places.
ghost use Rattle.std.specs.Prelude.{◌≡◌, ℕ, ◌||◌, OnOk};
ghost use Rattle.rtx_tree.specs.RegSet.{has_reg};
ghost use Rattle.reg_uses.specs.Effects as spec;

use crate::Regs;
use plain_data::Memory;
use rtx_tree::{Code, Rtx};

/// Adds the register that the tree is, if it is one. A number past `u32` finds no memory.
pub fn add_register(x: &Rtx, regs: &mut Regs) -> Result<(), Memory>
    ensures { OnOk result ((reg : ℕ) →
        has_reg regs.new reg ≡ (has_reg regs.old reg || spec.is_register reg x.now)) }
{
    if !matches!(x.code, Code::Reg) || x.number <= 0 {
        return Ok(());
    }
    if x.number > i64::from(u32::MAX) {
        return Err(Memory);
    }
    regs.push(x.number as u32)
}

/// Adds each register that the tree reads.
#[tactic(auto, using(crate::proofs::ReadLaws::reads_out))]
pub fn add_reads(x: &Rtx, regs: &mut Regs) -> Result<(), Memory>
    ensures { OnOk result ((reg : ℕ) →
        has_reg regs.new reg ≡ (has_reg regs.old reg || spec.reads reg x.now)) }
{
    add_register(x, regs)?;
    for kid in x.kids.as_slice() {
        add_reads(kid, regs)?;
    }
    Ok(())
}

/// Adds the register of a place: itself, or that of which it is the low part.
pub fn add_place(place: &Rtx, regs: &mut Regs) -> Result<(), Memory>
    ensures { OnOk result ((reg : ℕ) →
        has_reg regs.new reg ≡ (has_reg regs.old reg || spec.place_is reg place.now)) }
{
    match (place.code, place.kids.as_slice()) {
        (Code::Subreg, [whole, ..]) => add_register(whole, regs),
        _ => add_register(place, regs),
    }
}
