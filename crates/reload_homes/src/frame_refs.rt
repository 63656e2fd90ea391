//! References to the frame.
ghost use Rattle.std.specs.Prelude.{◌≡◌, ℤ, pos, ◌+ℤ◌, IfOk};
ghost use Rattle.std.specs.Int.{int_wrap, w64};
ghost use Rattle.reload_homes.specs.FrameRefs as spec;

use crate::parts::with_parts;
use md_operand::is_any_constant;
use plain_data::{Items, Memory};
use rtx_tree::{Code, Mode, Rtx};
use rv_regs::STACK_POINTER;
use std::alloc::Global;

/// `sp` plus a number, or `sp` alone where the number is 0.
fn sp_plus(alloc: Global, mode: Mode, number: i64) -> Result<Rtx, Memory>
    ensures { IfOk result (λ r. r ≡ spec.sp_plus mode number) }
{
    let sp = Rtx::reg(alloc, mode, u32::from(STACK_POINTER));
    if number == 0 {
        return Ok(sp);
    }
    Rtx::of_two(alloc, Code::Plus, mode, sp, Rtx::const_int(alloc, number))
}

/// A number as it stands in 64 signed bits.
#[tactic(auto, using(crate::proofs::Wrapping::number_wraps))]
fn wrapped(number: u64) -> i64
    ensures { result ≡ int_wrap w64 (pos number) }
{
    number.cast_signed()
}

/// `sp` plus an offset, as it stands in 64 signed bits, or `sp` alone where that is 0.
pub fn from_sp(alloc: Global, mode: Mode, offset: u64) -> Result<Rtx, Memory>
    ensures { IfOk result (λ r. r ≡ spec.from_sp mode (pos offset)) }
{
    sp_plus(alloc, mode, wrapped(offset))
}

/// The sum of a size and a number in 64 signed bits.
#[tactic(auto, using(crate::proofs::Wrapping::sum_wraps))]
fn sum_of(size: u64, number: i64) -> i64
    ensures { result ≡ int_wrap w64 (pos size +ℤ number) }
{
    size.cast_signed().wrapping_add(number)
}

/// The number of a constant has 64 signed bits.
#[tactic(auto, using(crate::proofs::Wrapping::bits_stay))]
fn in_bits(number: i64) -> i64
    ensures { result ≡ spec.in_bits number }
{
    number
}

fn number_added(base: &Rtx, constant: &Rtx) -> Option<i64>
    ensures { result ≡ spec.number_added base.now constant.now }
{
    if base.is_stack_vars() && is_any_constant(constant) {
        Some(in_bits(constant.number))
    } else {
        None
    }
}

/// What a reference to the frame adds to `virtual-stack-vars`, or `None` where the tree is none.
fn frame_offset(x: &Rtx) -> Option<i64>
    ensures { result ≡ spec.frame_offset x.now }
{
    match (x.code, x.kids.as_slice()) {
        (Code::Plus, [base, constant]) => number_added(base, constant),
        _ => { if x.is_stack_vars() { Some(0) } else { None } }
    }
}

/// `sp` and what a reference to the frame adds to it.
fn frame_address(alloc: Global, mode: Mode, size: u64, added: i64) -> Result<Rtx, Memory>
    ensures { IfOk result (λ r. r ≡ spec.from_sp mode (pos size +ℤ added)) }
{
    sp_plus(alloc, mode, sum_of(size, added))
}

/// A tree with its references to the frame put in, where the frame has this size:
/// `virtual-stack-vars`, or the sum of it and a constant, in this order, becomes `sp` plus the size
/// and the constant, in 64 signed bits that wrap, or plain `sp` where that is 0.
#[tactic(auto, using(crate::proofs::Rewrites::framed_reference))]
pub fn with_frame(alloc: Global, x: &Rtx, size: u64) -> Result<Rtx, Memory>
    ensures { IfOk result (λ r. r ≡ spec.framed size x.now) }
{
    match frame_offset(x) {
        Some(added) => frame_address(alloc, x.mode, size, added),
        None => {
            let mut kids = Items::new(alloc);
            for kid in x.kids.as_slice() {
                kids.push(with_frame(alloc, kid, size)?)?;
            }
            with_parts(alloc, x, kids)
        }
    }
}
