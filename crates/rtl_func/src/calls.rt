//! Calls.
ghost use Rattle.std.specs.Prelude.{◌≡◌, map};
ghost use Rattle.std.specs.List.{list_all};
ghost use Rattle.rtl_func.specs.Calls as spec;
ghost use Rattle.rtl_func.specs.Paths.{has_place};

use crate::shape::{class_at, same_mode};
use crate::tables::register_at;
use rtx_tree::{ArgUse, Class, Kind, Mode, Rtx};

fn is_argument(reg: u64) -> bool
    ensures { result ≡ spec.is_argument reg }
{
    10 <= reg && reg <= 17
}

/// Whether a tree is no hard register, or one of a0 to a7.
pub fn has_argument(x: &Rtx) -> bool
    ensures { result ≡ spec.has_argument x.now }
{
    match register_at(x) {
        None => true,
        Some(reg) => 32 <= reg || is_argument(reg),
    }
}

fn use_is_argument(arg: &ArgUse) -> bool
    ensures { result ≡ spec.use_is_argument arg.now }
{
    is_argument(u64::from(arg.reg))
}

/// Whether all uses are of a0 to a7.
pub fn uses_are_arguments(uses: &[ArgUse]) -> bool
    ensures { result ≡ list_all spec.use_is_argument uses.now }
{
    uses.iter().all(|arg| use_is_argument(arg))
}

fn is_target_address(x: &Rtx) -> bool
    ensures { result ≡ spec.is_target_address x.now }
{
    matches!(class_at(x), Class::Symbol | Class::Register) && same_mode(x.mode, Mode::DI)
}

fn is_target(x: &Rtx) -> bool
    ensures { result ≡ spec.is_target x.now }
{
    match (class_at(x), x.kids.as_slice()) {
        (Class::Memory, [address]) => is_target_address(address),
        _ => false,
    }
}

fn calls_target(x: &Rtx) -> bool
    ensures { result ≡ spec.calls_target x.now }
{
    match (class_at(x), x.kids.as_slice()) {
        (Class::Call, [place, ..]) => is_target(place),
        _ => false,
    }
}

fn is_result(x: &Rtx) -> bool
    ensures { result ≡ spec.is_result x.now }
{
    matches!(class_at(x), Class::Register) && x.number.cast_unsigned() == 10
}

fn has_result(x: &Rtx) -> bool
    ensures { result ≡ spec.has_result x.now }
{
    match (class_at(x), x.kids.as_slice()) {
        (Class::Setting, [target, _]) => is_result(target),
        _ => true,
    }
}

fn has_target(x: &Rtx) -> bool
    ensures { result ≡ spec.has_target x.now }
{
    match (class_at(x), x.kids.as_slice()) {
        (Class::Setting, [_, source]) => calls_target(source),
        _ => calls_target(x),
    }
}

fn uses_register(uses: &[ArgUse], reg: u8) -> bool
    ensures { result ≡ has_place (spec.used_registers uses.now) reg }
{
    for arg in uses {
        if arg.reg == reg {
            return true;
        }
    }
    false
}

fn uses_differ(uses: &[ArgUse]) -> bool
    ensures { result ≡ spec.are_distinct (spec.used_registers uses.now) }
{
    let mut rest = uses;
    while let [arg, others @ ..] = rest {
        if uses_register(others, arg.reg) {
            return false;
        }
        rest = others;
    }
    true
}

/// Whether a call's result is set to a0, and its uses are different ones of a0 to a7. What is no
/// call has neither.
pub fn call_result_agrees(kind: Kind, pattern: &Rtx, uses: &[ArgUse]) -> bool
    ensures { result ≡ spec.call_result_agrees kind pattern.now uses.now }
{
    match kind {
        Kind::Call => has_result(pattern) && (uses_are_arguments(uses) && uses_differ(uses)),
        _ => true,
    }
}

/// Whether a call's target is a symbol or a register of mode DI. What is no call has none.
pub fn call_target_agrees(kind: Kind, pattern: &Rtx) -> bool
    ensures { result ≡ spec.call_target_agrees kind pattern.now }
{
    match kind {
        Kind::Call => has_target(pattern),
        _ => true,
    }
}
