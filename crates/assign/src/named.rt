//! The pseudo registers of a function.
ghost use Rattle.std.specs.Prelude.{◌≡◌, ℕ, ◌+◌, ◌*◌, ◌<◌, ◌≤◌, ◌^◌, [], ◌∷◌, ◌++◌, if◌then◌else◌, length, All, IfOk, OnOk};
ghost use Rattle.std.specs.List.Sorted.{IsStrictlyIncreasing};
ghost use Rattle.rtx_tree.specs.RegSet.{has_reg};
ghost use Rattle.rtx_tree.specs.Registers.{pseudo};
ghost use Rattle.reg_rows.specs.Row.{has};
ghost use Rattle.assign.specs.machine.Named.{stands_in};

use plain_data::Memory;
use reg_rows::RegRow;
use reg_uses::{Regs, add_reads};
use rtx_tree::{FIRST_PSEUDO, Insn};
use std::alloc::Global;

const WORD: usize = u64::BITS as usize;

/// The registers that stand in the instructions.
pub fn registers_of(alloc: Global, insns: &[Insn]) -> Result<Regs, Memory>
    ensures { IfOk result (λ regs. (reg : ℕ) → has_reg regs reg ≡ stands_in insns.now reg) }
{
    let mut regs = Regs::new(alloc);
    for insn in insns {
        add_reads(&insn.pattern, &mut regs)?;
    }
    Ok(regs)
}

fn add_pseudo(named: &RegRow, k: u32, pseudos: &mut Regs) -> Result<(), Memory>
    requires { pseudo k < 2 ^ 32 }
    ensures { OnOk result (pseudos.new ≡
        (if has named.now (pseudo k) then pseudos.old ++ k ∷ [] else pseudos.old)) }
{
    if named.contains(FIRST_PSEUDO + k) {
        pseudos.push(k)
    } else {
        Ok(())
    }
}

/// The pseudos of a set of registers, in increasing number.
pub fn pseudos_of(alloc: Global, named: &RegRow) -> Result<Regs, Memory>
    requires { 64 * length named.now ≤ 2 ^ 32 }
    ensures ordered { IfOk result (λ pseudos. IsStrictlyIncreasing pseudos) }
    ensures each { IfOk result (λ pseudos. (k : ℕ) → has_reg pseudos k ≡ has named.now (pseudo k)) }
    ensures small { IfOk result (λ pseudos. All (λ k. pseudo k < 64 * length named.now) pseudos) }
{
    let end = named.width() * WORD;
    let count = end.saturating_sub(FIRST_PSEUDO as usize) as u32;
    let mut pseudos = Regs::new(alloc);
    for k in 0..count {
        add_pseudo(named, k, &mut pseudos)?;
    }
    Ok(pseudos)
}
