//! The patterns of the generated function.
ghost use Rattle.std.specs.Prelude.{◌≡◌, ◌<◌, ◌≤◌, ◌^◌, ◌++◌, IfOk, OnOk};
ghost use Rattle.rtl_make.specs.Made as spec;

use crate::generator::{bits_at, next_of};
use plain_data::Memory;
use rtx_tree::{Code, Kids, Mode, Rtx, pseudo};
use std::alloc::Global;

/// The register of the first argument.
const FIRST_ARGUMENT: u32 = 10;

fn pseudo_reg(alloc: Global, k: u32) -> Rtx
    requires { k < 16 }
    ensures { result ≡ spec.pseudo_reg k }
{
    Rtx::reg(alloc, Mode::DI, pseudo(k))
}

/// A setting of a register to what a code gives of two operands.
fn set_to(alloc: Global, target: Rtx, code: Code, a: Rtx, b: Rtx) -> Result<Rtx, Memory>
    ensures { IfOk result (λ x. x ≡ spec.set_to target code a b) }
{
    let source = Rtx::of_two(alloc, code, Mode::DI, a, b)?;
    Rtx::of_two(alloc, Code::Set, Mode::Void, target, source)
}

fn setting(alloc: Global, k: u32) -> Result<Rtx, Memory>
    requires { k < 16 }
    ensures { IfOk result (λ x. x ≡ spec.setting k) }
{
    let argument = Rtx::reg(alloc, Mode::DI, FIRST_ARGUMENT + k % 8);
    let number = Rtx::const_int(alloc, i64::from(k));
    set_to(alloc, pseudo_reg(alloc, k), Code::Plus, argument, number)
}

/// The code of an operation, by three bits.
fn operation_code(n: u32) -> Code
    requires { n < 8 }
    ensures { result ≡ spec.operation_code n }
{
    match n {
        0 => Code::Plus,
        1 => Code::Minus,
        2 => Code::And,
        3 => Code::Ior,
        4 => Code::Xor,
        5 => Code::Mult,
        6 => Code::Ashift,
        _ => Code::Lshiftrt,
    }
}

/// The second operand of an operation: a register, or the count of a shift.
fn second_operand(alloc: Global, x: u64) -> Rtx
    ensures { result ≡ spec.second_operand x }
{
    if bits_at(61, 8, x) < 6 {
        pseudo_reg(alloc, bits_at(49, 16, x))
    } else {
        Rtx::const_int(alloc, i64::from(bits_at(43, 64, x)))
    }
}

/// The operation that a number picks.
fn operation(alloc: Global, x: u64) -> Result<Rtx, Memory>
    ensures { IfOk result (λ tree. tree ≡ spec.operation x) }
{
    let target = pseudo_reg(alloc, bits_at(57, 16, x));
    let first = pseudo_reg(alloc, bits_at(53, 16, x));
    let second = second_operand(alloc, x);
    set_to(
        alloc,
        target,
        operation_code(bits_at(61, 8, x)),
        first,
        second,
    )
}

fn summing(alloc: Global, k: u32) -> Result<Rtx, Memory>
    requires { k < 16 }
    ensures { IfOk result (λ x. x ≡ spec.summing k) }
{
    let (target, first) = (pseudo_reg(alloc, 0), pseudo_reg(alloc, 0));
    set_to(alloc, target, Code::Plus, first, pseudo_reg(alloc, k))
}

fn resulting(alloc: Global) -> Result<Rtx, Memory>
    ensures { IfOk result (λ x. x ≡ spec.resulting) }
{
    let result = Rtx::reg(alloc, Mode::DI, FIRST_ARGUMENT);
    Rtx::of_two(alloc, Code::Set, Mode::Void, result, pseudo_reg(alloc, 0))
}

fn push_settings(alloc: Global, out: &mut Kids) -> Result<(), Memory>
    ensures { OnOk result (out.new ≡ out.old ++ spec.each_from spec.setting 0 16) }
{
    for k in 0..16 {
        out.push(setting(alloc, k)?)?;
    }
    Ok(())
}

fn push_operations(alloc: Global, number: u64, out: &mut Kids) -> Result<(), Memory>
    ensures { OnOk result (out.new ≡ out.old ++ spec.operations number number) }
{
    let mut x = number;
    for _ in 0..number {
        x = next_of(x);
        out.push(operation(alloc, x)?)?;
    }
    Ok(())
}

fn push_sums(alloc: Global, out: &mut Kids) -> Result<(), Memory>
    ensures { OnOk result (out.new ≡ out.old ++ spec.each_from spec.summing 1 15) }
{
    for k in 1..16 {
        out.push(summing(alloc, k)?)?;
    }
    Ok(())
}

/// The patterns of the function with a number, in order.
pub(crate) fn patterns(alloc: Global, number: u64) -> Result<Kids, Memory>
    ensures { IfOk result (λ all. all ≡ spec.patterns number) }
{
    let mut all = Kids::new(alloc);
    push_settings(alloc, &mut all)?;
    push_operations(alloc, number, &mut all)?;
    push_sums(alloc, &mut all)?;
    all.push(resulting(alloc)?)?;
    Ok(all)
}
