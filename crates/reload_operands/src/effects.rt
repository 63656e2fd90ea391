//! What each effect of an instruction changes.
ghost use Rattle.std.specs.Prelude.{◌≡◌, ◌<◌, ◌^◌, IfSome};
ghost use Rattle.std.specs.Option.{option_copied};
ghost use Rattle.md_constr.specs.Inputs as inputs;
ghost use Rattle.reload_operands.specs.Changes as spec;

use reload_homes::register_at;
use rtx_tree::{Code, Rtx};

/// What a `set` or a `clobber` changes.
pub fn target_of(effect: &Rtx) -> Option<&Rtx>
    ensures { option_copied result ≡ inputs.target_of effect.now }
{
    match (effect.code, effect.kids.as_slice()) {
        (Code::Set, [target, _]) => Some(target),
        (Code::Clobber, [target]) => Some(target),
        _ => None,
    }
}

/// The register that an effect changes, or of which it changes the low part.
pub fn changed_register(effect: &Rtx) -> Option<u64>
    ensures value { result ≡ spec.changed_register effect.now }
{
    match target_of(effect) {
        Some(target) => register_at(target),
        None => None,
    }
}

/// Whether an effect changes memory.
pub fn changes_memory(effect: &Rtx) -> bool
    ensures { result ≡ spec.changes_memory effect.now }
{
    match target_of(effect) {
        Some(target) => matches!(target.code, Code::Mem),
        None => false,
    }
}
