//! The addresses of loads and stores.
ghost use Rattle.std.specs.Prelude.{◌≡◌};
ghost use Rattle.md_operand.specs.Addresses as spec;

use rtx_tree::{Code, Rtx, VIRTUAL_STACK_VARS};
use rv_regs::STACK_POINTER;

fn is_stack_pointer(x: &Rtx) -> bool
    ensures { result ≡ spec.is_stack_pointer x.now }
{
    matches!(x.code, Code::Reg) && x.number == i64::from(STACK_POINTER)
}

/// Whether an expression is a register other than `virtual-stack-vars`.
pub fn is_base(x: &Rtx) -> bool
    ensures { result ≡ spec.is_base x.now }
{
    matches!(x.code, Code::Reg) && x.number != i64::from(VIRTUAL_STACK_VARS)
}

/// Whether an expression is a constant.
pub fn is_any_constant(x: &Rtx) -> bool
    ensures { result ≡ spec.is_constant spec.is_any x.now }
{
    matches!(x.code, Code::ConstInt)
}

/// Whether an expression is a constant of 12 bits, signed.
fn is_near_constant(x: &Rtx) -> bool
    ensures { result ≡ spec.is_constant spec.is_near x.now }
{
    is_any_constant(x) && x.number >= -2048 && x.number <= 2047
}

/// Whether an expression is a constant of more than 12 bits, signed.
fn is_beyond_constant(x: &Rtx) -> bool
    ensures { result ≡ spec.is_constant spec.is_beyond x.now }
{
    is_any_constant(x) && !(x.number >= -2048 && x.number <= 2047)
}

/// Whether an expression is what a load or a store addresses by itself.
fn is_near_address(x: &Rtx) -> bool
    ensures { result ≡ spec.is_near_address x.now }
{
    match (x.code, x.kids.as_slice()) {
        (Code::Plus, [base, offset]) => is_base(base) && is_near_constant(offset),
        _ => is_base(x),
    }
}

/// Whether an expression refers to the frame: it is `virtual-stack-vars`, or the sum of that and
/// any constant, in this order.
pub fn frame_reference(x: &Rtx) -> bool
    ensures { result ≡ spec.is_frame_reference x.now }
{
    match (x.code, x.kids.as_slice()) {
        (Code::Plus, [base, offset]) => base.is_stack_vars() && is_any_constant(offset),
        _ => x.is_stack_vars(),
    }
}

/// Whether an expression is a far address: the sum of `sp` and a constant below -2048 or above
/// 2047, in this order.
pub fn far_address(x: &Rtx) -> bool
    ensures { result ≡ spec.is_far_address x.now }
{
    match (x.code, x.kids.as_slice()) {
        (Code::Plus, [base, offset]) => is_stack_pointer(base) && is_beyond_constant(offset),
        _ => false,
    }
}

/// Whether an expression is a legitimate address: a register other than `virtual-stack-vars`, the
/// sum of such a one and a constant from -2048 to 2047, in this order, a [`frame_reference`], or a
/// [`far_address`]. The modes of its parts are not looked at.
pub fn legitimate_address(x: &Rtx) -> bool
    ensures { result ≡ spec.is_legitimate_address x.now }
{
    is_near_address(x) || frame_reference(x) || far_address(x)
}
