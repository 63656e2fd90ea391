//! Plain sets of registers, and what they set them to.
ghost use Rattle.std.specs.Prelude.{◌≡◌, true, false, Some, IfOk, IsSome, slice_get};
ghost use Rattle.std.specs.Option.{option_copied};
ghost use Rattle.rtx_tree.specs.Tree.{kids_of};
ghost use Rattle.rtx_tree.specs.declared.code.Mode.{Mode};
ghost use Rattle.rtx_tree.specs.declared.tree.Rtx.{Rtx};
ghost use Rattle.reuse.specs.Reuse as spec;

use plain_data::Memory;
use rtl_func::class_at;
use rtx_tree::{Class, Code, Insn, Kind, Mode, Rtx, VIRTUAL_STACK_VARS};
use std::alloc::Global;

/// The mode of the register of which an instruction is a plain set, or `None` where it is none.
pub fn set_mode(insn: &Insn) -> Option<Mode>
    ensures { result ≡ spec.set_mode insn.now }
{
    match (insn.kind, insn.pattern.code, insn.pattern.kids.as_slice()) {
        (Kind::Plain, Code::Set, [target, _]) if matches!(target.code, Code::Reg) => {
            Some(target.mode)
        }
        _ => None,
    }
}

/// What an instruction sets its place to.
pub fn source_of(insn: &Insn) -> Option<&Rtx>
    ensures { option_copied result ≡ spec.source_of insn.now }
{
    insn.pattern.kids.as_slice().get(1)
}

/// Whether an expression is more than an operand of a move.
pub fn is_computed(x: &Rtx) -> bool
    ensures { result ≡ spec.is_computed x.now }
{
    match class_at(x) {
        Class::Register => x.number.cast_unsigned() == u64::from(VIRTUAL_STACK_VARS),
        Class::Lowpart | Class::Memory | Class::Constant | Class::Symbol => false,
        _ => true,
    }
}

/// Whether an instruction is a plain set of a register to more than an operand of a move.
pub fn sets_computed(insn: &Insn) -> bool
    ensures { result ≡ false → (mode : Mode) (source : Rtx) → spec.set_mode insn.now ≡ Some mode →
        spec.source_of insn.now ≡ Some source → spec.is_computed source ≡ true → ⊥ }
{
    match (set_mode(insn), source_of(insn)) {
        (Some(_), Some(source)) => is_computed(source),
        _ => false,
    }
}

/// The instruction with a register as what it sets its place to.
pub fn reusing(alloc: Global, insn: &Insn, mode: Mode, reg: u32) -> Result<Insn, Memory>
    requires { IsSome (slice_get (kids_of insn.now.pattern) 1) }
    ensures { IfOk result (λ new. new ≡ spec.reusing mode reg insn.now) }
{
    let mut pattern = insn.pattern.copy(alloc)?;
    let _source = pattern.replace_at(&[1], Rtx::reg(alloc, mode, reg));
    insn.with(alloc, pattern)
}
