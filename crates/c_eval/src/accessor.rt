//! What conditions ask of operands.
ghost use Rattle.std.specs.Prelude.{◌≡◌};
ghost use Rattle.c_eval.specs.Numbers as numbers;
ghost use Rattle.c_eval.specs.Value as spec;

use crate::number::truth;
use c_cond::Call;
use rtx_tree::{Code, Mode, RegSet, Rtx, same};

/// Whether two codes are the same.
#[tactic(auto, using(crate::proofs::Same::code_is))]
pub fn same_code(a: Code, b: Code) -> bool
    ensures { result ≡ spec.same_code a b }
{
    a.same(b)
}

/// Whether two modes are the same.
#[tactic(auto, using(crate::proofs::Same::mode_is))]
pub fn same_mode(a: Mode, b: Mode) -> bool
    ensures { result ≡ spec.same_mode a b }
{
    a.same(b)
}

/// Whether a tree has a code.
pub fn is_a(code: Code, x: &Rtx) -> bool
    ensures { result ≡ spec.is_a code x.now }
{
    same_code(x.code, code)
}

/// The number of a tree of a code; any other tree has none.
pub fn number_in(code: Code, x: &Rtx) -> Option<i64>
    ensures { result ≡ spec.number_in code x.now }
{
    if is_a(code, x) { Some(x.number) } else { None }
}

/// The register that a tree is; any other tree is none.
pub fn register_in(x: &Rtx) -> Option<u32>
    ensures { result ≡ spec.register_in x.now }
{
    let number = number_in(Code::Reg, x)?;
    u32::try_from(number).ok()
}

/// Whether a tree is a register that is dead right before an instruction of the window.
pub fn is_dead(dead: &[RegSet], place: u64, x: &Rtx) -> Option<i64>
    ensures { result ≡ spec.is_dead dead.now place x.now }
{
    let reg = register_in(x)?;
    let regs = dead.get(place as usize)?;
    Some(truth(regs.contains(reg)))
}

/// What a comparison with `==` or `!=` is worth.
fn compared(equal: bool, same: bool) -> i64
    ensures { result ≡ spec.compared equal same }
{
    truth(equal == same)
}

/// Whether a tree has a code, or has not.
pub fn code_is(code: Code, equal: bool, x: &Rtx) -> i64
    ensures { result ≡ spec.code_is code equal x.now }
{
    compared(equal, is_a(code, x))
}

/// Whether a tree has a mode, or has not.
pub fn mode_is(mode: Mode, equal: bool, x: &Rtx) -> i64
    ensures { result ≡ spec.mode_is mode equal x.now }
{
    compared(equal, same_mode(x.mode, mode))
}

/// Whether two trees are the same.
pub fn same_tree(a: &Rtx, b: &Rtx) -> bool
    ensures { result ≡ spec.same_tree a.now b.now }
{
    same(a, b)
}

/// The truth of whether two trees are the same.
pub fn equal(a: &Rtx, b: &Rtx) -> i64
    ensures { result ≡ numbers.truth (spec.same_tree a.now b.now) }
{
    truth(same_tree(a, b))
}

/// What is asked of one operand.
pub fn asked(call: Call, x: &Rtx) -> Option<i64>
    ensures { result ≡ spec.asked call x.now }
{
    match call {
        Call::Intval => number_in(Code::ConstInt, x),
        Call::Regno => number_in(Code::Reg, x),
        Call::RegP => Some(truth(is_a(Code::Reg, x))),
        Call::MemP => Some(truth(is_a(Code::Mem, x))),
        Call::ConstIntP => Some(truth(is_a(Code::ConstInt, x))),
        Call::SymbolRefP => Some(truth(is_a(Code::SymbolRef, x))),
        _ => None,
    }
}
