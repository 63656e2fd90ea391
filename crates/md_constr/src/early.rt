//! Outputs that are changed before all inputs are taken.
ghost use Rattle.std.specs.Prelude.{◌≡◌};
ghost use Rattle.md_constr.specs.Early as early;
ghost use Rattle.md_constr.specs.Fits as spec;

use crate::admits::register_of;
use md_forms::OperandConstraint;
use md_text::Alternative;
use rtx_tree::{Operands, Rtx};

fn mentions_at(operands: &Operands, reg: u32, number: u64) -> bool
    ensures { result ≡ spec.mentions_at operands.now reg number }
{
    match operands.get(number as usize) {
        Some(x) => x.mentions(reg),
        None => false,
    }
}

/// Whether an input other than an operand mentions a register.
fn is_shared(inputs: &[u64], operands: &Operands, own: u64, reg: u32) -> bool
    ensures { result ≡ spec.is_shared inputs.now operands.now own reg }
{
    inputs.iter().any(|input| *input != own && mentions_at(operands, reg, *input))
}

/// Whether a register shares itself with an input other than an operand.
fn shares_register(inputs: &[u64], operands: &Operands, own: u64, x: &Rtx) -> bool
    ensures { result ≡
        early.shares_register (spec.is_shared inputs.now operands.now own) x.now }
{
    match register_of(x) {
        Some(reg) => is_shared(inputs, operands, own, reg),
        None => false,
    }
}

/// Whether the operand of a constraint is changed.
fn is_changed(changed: &[u64], constraint: &OperandConstraint) -> bool
    ensures { result ≡ spec.is_changed changed.now constraint.now }
{
    let own = u64::from(constraint.operand);
    changed.iter().any(|number| *number == own)
}

/// Whether an operand is an earlyclobber output in an alternative of its constraint that shares a
/// register with an input.
pub fn clashes_in(
    inputs: &[u64],
    changed: &[u64],
    operands: &Operands,
    constraint: &OperandConstraint,
    x: &Rtx,
    alternative: &Alternative,
) -> bool
    ensures { result ≡
        spec.clashes_in inputs.now changed.now operands.now constraint.now x.now alternative.now }
{
    alternative.early
        && is_changed(changed, constraint)
        && shares_register(inputs, operands, u64::from(constraint.operand), x)
}
