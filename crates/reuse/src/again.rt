//! Values that are set again.
ghost use Rattle.std.specs.Prelude.{◌≡◌, true, false, MatchOption, Some};
ghost use Rattle.rtx_tree.specs.declared.code.Mode.{Mode};
ghost use Rattle.rtx_tree.specs.declared.tree.Rtx.{Rtx};
ghost use Rattle.reuse.specs.Reuse as spec;
ghost use Rattle.reuse.specs.machine.Found as found;

use crate::sets::{is_computed, set_mode, source_of};
use insn_fuse::set_of;
use rtx_tree::{Insn, Mode, same};

/// How the value of a first instruction is reused.
#[derive(Clone, Copy)]
pub struct Again {
    /// The pseudo register that the first sets.
    pub register: u32,
    /// Its mode.
    pub mode: Mode,
}

/// The mode of the registers of which both instructions are plain sets, if it is one.
fn mode_again(one: &Insn, other: &Insn) -> Option<Mode>
    ensures { MatchOption result
        ((mode : Mode) → spec.set_mode one.now ≡ Some mode → spec.set_mode other.now ≡ Some mode → ⊥)
        (λ mode. (spec.set_mode one.now ≡ Some mode) × (spec.set_mode other.now ≡ Some mode)) }
{
    let first = set_mode(one)?;
    let second = set_mode(other)?;
    if first.same(second) {
        Some(first)
    } else {
        None
    }
}

/// Whether both instructions set their places to one expression, which is more than an operand of a
/// move and does not mention a register.
fn sets_same(one: &Insn, other: &Insn, register: u32) -> bool
    ensures all { result ≡ true →
        (source : Rtx) × found.SetsSame one.now other.now register source }
    ensures none { result ≡ false → (source : Rtx) →
        found.SetsSame one.now other.now register source → ⊥ }
{
    match (source_of(one), source_of(other)) {
        (Some(first), Some(second)) => {
            same(first, second) && is_computed(first) && !first.mentions(register)
        }
        _ => false,
    }
}

/// How the value of a first instruction is reused by a second, or `None` exactly where it is not
/// set again.
pub fn again_of(one: &Insn, other: &Insn) -> Option<Again>
    ensures { found.FoundAgain one.now other.now result }
{
    let register = set_of(one)?;
    let mode = mode_again(one, other)?;
    if sets_same(one, other, register) {
        Some(Again { register, mode })
    } else {
        None
    }
}
