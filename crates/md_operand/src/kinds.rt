//! Kinds of operands, whatever their mode.
ghost use Rattle.std.specs.Prelude.{◌≡◌};
ghost use Rattle.md_operand.specs.Operand as spec;

use crate::addresses::{far_address, is_base, legitimate_address};
use rtx_tree::{Class, Code, Mode, Rtx};

/// Whether a mode accepts another: a mode that is none accepts every mode.
pub fn accepts_mode(wanted: Mode, mode: Mode) -> bool
    ensures { result ≡ spec.accepts_mode wanted mode }
{
    match wanted {
        Mode::Void => true,
        Mode::QI | Mode::HI | Mode::SI | Mode::DI => wanted.name() == mode.name(),
    }
}

/// Whether a tree has the mode, where one is wanted.
pub fn has_mode(wanted: Mode, x: &Rtx) -> bool
    ensures { result ≡ spec.has_mode wanted x.now }
{
    accepts_mode(wanted, x.mode)
}

/// Whether `x` is a register other than `virtual-stack-vars`, or the low part of one.
pub fn is_register(x: &Rtx) -> bool
    ensures { result ≡ spec.is_register x.now }
{
    match x.code {
        Code::Reg => is_base(x),
        Code::Subreg => match x.kids.as_slice() {
            [inner] => is_base(inner),
            _ => false,
        },
        _ => false,
    }
}

/// Whether `x` is a symbol's address.
pub fn is_symbol(x: &Rtx) -> bool
    ensures { result ≡ spec.is_symbol x.now }
{
    matches!(x.code, Code::SymbolRef)
}

/// Whether `x` is memory at a legitimate address.
pub fn is_memory(x: &Rtx) -> bool
    ensures { result ≡ spec.is_memory x.now }
{
    match x.code {
        Code::Mem => match x.kids.as_slice() {
            [address] => legitimate_address(address),
            _ => false,
        },
        _ => false,
    }
}

/// Whether `x` is memory at a far address.
pub fn is_far(x: &Rtx) -> bool
    ensures { result ≡ spec.is_far x.now }
{
    match x.code {
        Code::Mem => match x.kids.as_slice() {
            [address] => far_address(address),
            _ => false,
        },
        _ => false,
    }
}

/// Whether `x` is a comparison.
pub fn is_comparison(x: &Rtx) -> bool
    ensures { result ≡ spec.is_comparison x.now }
{
    matches!(x.code.class(), Class::Comparison)
}
