//! The values that statements make of others.
ghost use Rattle.std.specs.Prelude.{◌≡◌, IfOk};
ghost use Rattle.std.specs.Int.{cast_unsigned, w64};
ghost use Rattle.bits64.specs.Words.{signed};
ghost use Rattle.gen_emit.specs.Values as spec;

use bits64::{Width, sext};
use plain_data::Memory;
use rtx_tree::{Code, FIRST_PSEUDO, Mode, Rtx};
use std::alloc::Global;

/// The low bits of a number, read as two's complement.
fn signed_low(n: i64, width: Width) -> i64
    ensures { result ≡ signed width (cast_unsigned w64 n) }
{
    sext(n.cast_unsigned(), width).cast_signed()
}

/// The sign extension of a number's low bits of a mode.
pub fn extended(mode: Mode, n: i64) -> i64
    ensures { result ≡ spec.extended mode n }
{
    match mode {
        Mode::QI => signed_low(n, Width::W8),
        Mode::HI => signed_low(n, Width::W16),
        Mode::SI => signed_low(n, Width::W32),
        Mode::Void | Mode::DI => n,
    }
}

/// Whether a tree is a register.
pub fn is_register(x: &Rtx) -> bool
    ensures { result ≡ spec.is_register x.now }
{
    matches!(x.code, Code::Reg)
}

/// A pseudo register in a mode that has no more bits than its own.
fn pseudo_part(alloc: Global, mode: Mode, x: Rtx) -> Result<Option<Rtx>, Memory>
    ensures { IfOk result (λ r. r ≡ spec.pseudo_part mode x) }
{
    let bits = mode.bits();
    let whole = x.mode.bits();
    if bits == whole {
        Ok(Some(x))
    } else if bits < whole {
        Ok(Some(Rtx::of_one(alloc, Code::Subreg, mode, x)?))
    } else {
        Ok(None)
    }
}

/// A register in a mode, or the low part of a pseudo register. Other trees have no low part.
pub fn low_part(alloc: Global, mode: Mode, x: Rtx) -> Result<Option<Rtx>, Memory>
    ensures { IfOk result (λ r. r ≡ spec.low_part mode x) }
{
    if !is_register(&x) {
        Ok(None)
    } else if x.number < i64::from(FIRST_PSEUDO) {
        Ok(Some(Rtx::leaf(alloc, Code::Reg, mode, x.number)))
    } else {
        pseudo_part(alloc, mode, x)
    }
}
