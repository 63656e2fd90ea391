//! The registers that a window sets.
ghost use Rattle.std.specs.Prelude.{◌≡◌, ℕ, true};
ghost use Rattle.rtx_tree.specs.RegSet.{has_reg};
ghost use Rattle.rv_regs.specs.Registers.{kept_registers};
ghost use Rattle.live_chain.specs.machine.Window.{sets_in};

use reg_uses::any_insn_sets;
use rtx_tree::Insn;
use rv_regs::kept_registers;

/// Whether two windows set the same of some registers.
fn same_sets_of(regs: &[u8], old: &[Insn], new: &[Insn]) -> bool
    ensures { result ≡ true → (reg : ℕ) → has_reg regs.now reg ≡ true →
        sets_in old.now reg ≡ sets_in new.now reg }
{
    for kept in regs {
        let reg = u32::from(*kept);
        if any_insn_sets(old, reg) != any_insn_sets(new, reg) {
            return false;
        }
    }
    true
}

/// Whether two windows set the same of the registers that a return uses where they are set.
pub fn same_sets(old: &[Insn], new: &[Insn]) -> bool
    ensures { result ≡ true → (reg : ℕ) → has_reg kept_registers reg ≡ true →
        sets_in old.now reg ≡ sets_in new.now reg }
{
    same_sets_of(&kept_registers(), old, new)
}
