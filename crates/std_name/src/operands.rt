//! Operands of instructions that have standard names.
ghost use Rattle.std.specs.Prelude.{◌≡◌, IfOk};
ghost use Rattle.std_name.specs.Operands as spec;

use crate::standard::{OperandRole, StandardOperand};
use plain_data::Memory;
use rtl_func::{class_at, is_place};
use rtx_tree::{Class, Mode, Rtx, VIRTUAL_STACK_VARS};
use std::alloc::Global;

fn is_leaf(x: &Rtx) -> bool
    ensures { result ≡ spec.is_leaf x.now }
{
    matches!(
        class_at(x),
        Class::Register | Class::Lowpart | Class::Memory | Class::Constant | Class::Symbol
    )
}

/// Whether a tree is the address of the locals.
pub fn is_vars(x: &Rtx) -> bool
    ensures { result ≡ spec.is_vars x.now }
{
    matches!(class_at(x), Class::Register)
        && x.number.cast_unsigned() == u64::from(VIRTUAL_STACK_VARS)
}

fn is_target(x: &Rtx) -> bool
    ensures { result ≡ spec.is_target x.now }
{
    is_place(x) && !is_vars(x)
}

/// Whether an operand may stand in its role.
pub fn fits(operand: &StandardOperand) -> bool
    ensures { result ≡ spec.fits operand.now }
{
    match operand.role {
        OperandRole::Target => is_target(&operand.tree),
        OperandRole::Input => is_leaf(&operand.tree),
        OperandRole::Comparison | OperandRole::Fixed => true,
    }
}

/// The mode of a value that stands where a constant would have a mode.
fn mode_in(there: Mode, x: &Rtx) -> Mode
    ensures { result ≡ spec.mode_in there x.now }
{
    match class_at(x) {
        Class::Constant => there,
        Class::Symbol => Mode::DI,
        _ => x.mode,
    }
}

/// What an instruction sets, as an operand.
pub fn target(alloc: Global, x: &Rtx) -> Result<StandardOperand, Memory>
    ensures { IfOk result (λ operand. operand ≡ spec.target x.now) }
{
    Ok(StandardOperand {
        tree: x.copy(alloc)?,
        role: OperandRole::Target,
        mode: x.mode,
    })
}

/// A value that an instruction takes, as an operand, where a constant has a mode.
pub fn input(alloc: Global, there: Mode, x: &Rtx) -> Result<StandardOperand, Memory>
    ensures { IfOk result (λ operand. operand ≡ spec.input there x.now) }
{
    Ok(StandardOperand {
        tree: x.copy(alloc)?,
        role: OperandRole::Input,
        mode: mode_in(there, x),
    })
}

/// A comparison of the two operands behind it, as an operand.
pub fn comparison(alloc: Global, x: &Rtx) -> Result<StandardOperand, Memory>
    ensures { IfOk result (λ operand. operand ≡ spec.comparison x.now) }
{
    Ok(StandardOperand {
        tree: x.copy(alloc)?,
        role: OperandRole::Comparison,
        mode: x.mode,
    })
}

/// A label, or a constant that has its place, as an operand.
pub fn fixed(alloc: Global, x: &Rtx) -> Result<StandardOperand, Memory>
    ensures { IfOk result (λ operand. operand ≡ spec.fixed x.now) }
{
    Ok(StandardOperand {
        tree: x.copy(alloc)?,
        role: OperandRole::Fixed,
        mode: x.mode,
    })
}
