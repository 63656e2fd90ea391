//! The value of an expression.
ghost use Rattle.std.specs.Prelude.{◌≡◌, map, option_map, ◌↔◌, IsTrue, IfSome, ◌<◌};
ghost use Rattle.bits64.specs.Operators.{asks_of, taking_of};
ghost use Rattle.rtx_tree.specs.Code.{class_of_code};
ghost use Rattle.rtl_step.specs.Value as spec;
ghost use Rattle.rtl_step.specs.machine.Parts as steps;

use crate::regs::Regs;
use bits64::{Asks, Opaque, Operator, Relation, Taking, Width, lacks, sext, trunc, zext};
use rtx_tree::{Class, Code, Memories, Mode, Rtx, Symbols};
use run_memory::{load, symbol_address};

/// The width of a mode; `Void` has none.
pub fn width_of(mode: Mode) -> Option<Width>
    ensures { result ≡ spec.width_of mode }
{
    match mode {
        Mode::Void => None,
        Mode::QI => Some(Width::W8),
        Mode::HI => Some(Width::W16),
        Mode::SI => Some(Width::W32),
        Mode::DI => Some(Width::W64),
    }
}

/// The operator of a code, if it has one.
pub fn operator_of(code: Code) -> Option<Operator>
    ensures { result ≡ spec.operator_of code }
{
    match code {
        Code::Plus => Some(Operator::Add),
        Code::Minus => Some(Operator::Sub),
        Code::Mult => Some(Operator::Mul),
        Code::Div => Some(Operator::Opaque(Opaque::Div)),
        Code::Udiv => Some(Operator::Opaque(Opaque::Udiv)),
        Code::Mod => Some(Operator::Opaque(Opaque::Rem)),
        Code::Umod => Some(Operator::Opaque(Opaque::Urem)),
        Code::And => Some(Operator::And),
        Code::Ior => Some(Operator::Ior),
        Code::Xor => Some(Operator::Xor),
        Code::Neg => Some(Operator::Neg),
        Code::Not => Some(Operator::Not),
        Code::Ashift => Some(Operator::Shl),
        Code::Lshiftrt => Some(Operator::Shr),
        Code::Ashiftrt => Some(Operator::Sar),
        Code::Eq => Some(Operator::Test(Relation::Eq)),
        Code::Ne => Some(Operator::Test(Relation::Ne)),
        Code::Lt => Some(Operator::Test(Relation::Lt)),
        Code::Le => Some(Operator::Test(Relation::Le)),
        Code::Gt => Some(Operator::Test(Relation::Gt)),
        Code::Ge => Some(Operator::Test(Relation::Ge)),
        Code::Ltu => Some(Operator::Test(Relation::Ltu)),
        Code::Leu => Some(Operator::Test(Relation::Leu)),
        Code::Gtu => Some(Operator::Test(Relation::Gtu)),
        Code::Geu => Some(Operator::Test(Relation::Geu)),
        _ => None,
    }
}

fn asking_nothing(operator: Operator) -> Option<Operator>
    ensures { result ≡ spec.asking_nothing (asks_of operator) operator }
{
    match operator.asks() {
        Asks::Nothing => Some(operator),
        Asks::SecondNonzero => None,
    }
}

/// An operator of one number that asks nothing.
pub fn alone(operator: Operator) -> Option<Operator>
    ensures { result ≡ spec.if_alone (taking_of operator) operator }
{
    match operator.taking() {
        Taking::Alone => asking_nothing(operator),
        Taking::Pair | Taking::Counted => None,
    }
}

/// An operator of a number and a count that asks nothing.
pub fn counting(operator: Operator) -> Option<Operator>
    ensures { result ≡ spec.if_counted (taking_of operator) operator }
{
    match operator.taking() {
        Taking::Counted => asking_nothing(operator),
        Taking::Alone | Taking::Pair => None,
    }
}

/// The relation of a comparison.
pub fn relation_of(code: Code) -> Option<Relation>
    ensures { result ≡ spec.relation_in (spec.operator_of code) }
{
    match operator_of(code) {
        Some(Operator::Test(relation)) => Some(relation),
        _ => None,
    }
}

fn unary(code: Code, w: Width, a: u64) -> Option<u64>
    ensures { result ≡ spec.unary code w a }
{
    let operator = alone(operator_of(code)?)?;
    Some(operator.number(w, a, 0))
}

fn binary(code: Code, w: Width, a: u64, b: u64) -> Option<u64>
    ensures { result ≡ spec.binary code w a b }
{
    let operator = operator_of(code)?;
    if lacks(operator.asks(), w, b) {
        return None;
    }
    Some(operator.number(w, a, b))
}

fn shifted(code: Code, w: Width, a: u64, b: u64) -> Option<u64>
    ensures { result ≡ spec.shifted code w a b }
{
    let operator = counting(operator_of(code)?)?;
    Some(operator.number(w, a, b))
}

fn compared(code: Code, w: Width, a: u64, b: u64) -> Option<u64>
    ensures { result ≡ spec.compared code w a b }
{
    let relation = relation_of(code)?;
    Some(u64::from(relation.holds(w, a, b)))
}

fn converted(code: Code, from: Width, to: Width, a: u64) -> Option<u64>
    ensures { result ≡ spec.converted code from to a }
{
    match code {
        Code::SignExtend => Some(trunc(sext(a, from), to)),
        Code::ZeroExtend => Some(trunc(zext(a, from), to)),
        Code::Truncate => Some(trunc(a, to)),
        _ => None,
    }
}

fn first_width(a: Option<Width>, b: Option<Width>) -> Option<Width>
    ensures { result ≡ spec.first_width a b }
{
    match a {
        None => b,
        Some(w) => Some(w),
    }
}

fn count_width(mode: Mode) -> Width
    ensures { result ≡ spec.count_width (spec.width_of mode) }
{
    width_of(mode).unwrap_or(Width::W64)
}

/// The value of an expression without parts.
fn value_of_none(
    symbols: &Symbols,
    regs: &Regs,
    class: Class,
    number: i64,
    name: &[u8],
    w: Width,
) -> Option<u64>
    ensures { result ≡ spec.value_of_none symbols.now regs.now class number name.now w }
{
    match class {
        Class::Register => regs.value(number.cast_unsigned(), w),
        Class::Constant => Some(trunc(number.cast_unsigned(), w)),
        Class::Symbol => Some(trunc(symbol_address(symbols, name)?, w)),
        _ => None,
    }
}

/// The width in which the one part of an expression is read.
fn part_width(code: Code, a: Mode, w: Width) -> Option<Width>
    ensures { result ≡ steps.part_width (class_of_code code) (spec.width_of a) w }
{
    match code.class() {
        Class::Memory => Some(Width::W64),
        Class::Lowpart | Class::Unary => Some(w),
        Class::Extension | Class::Truncation => width_of(a),
        _ => None,
    }
}

/// The value of an expression by that of its one part.
fn with_part(memory: &Memories, code: Code, own: Width, w: Width, value: u64) -> Option<u64>
    ensures { result ≡ steps.with_part memory.now (class_of_code code) code own w value }
{
    match code.class() {
        Class::Memory => load(memory, w, value),
        Class::Lowpart => Some(value),
        Class::Unary => unary(code, w, value),
        Class::Extension | Class::Truncation => converted(code, own, w, value),
        _ => None,
    }
}

/// The width in which both sides of a comparison are read.
fn compared_widths(a: Option<Width>, b: Option<Width>) -> Option<(Width, Width)>
    ensures { result ≡ option_map steps.alike (spec.first_width a b) }
{
    let own = first_width(a, b)?;
    Some((own, own))
}

/// The widths in which the two parts of an expression are read.
fn part_widths(code: Code, a: Mode, b: Mode, w: Width) -> Option<(Width, Width)>
    ensures { result ≡
        steps.part_widths (class_of_code code) (spec.width_of a) (spec.width_of b) w }
{
    match code.class() {
        Class::Binary => Some((w, w)),
        Class::Shift => Some((w, count_width(b))),
        Class::Comparison => compared_widths(width_of(a), width_of(b)),
        _ => None,
    }
}

/// The value of an expression by those of its two parts, the first of which was read in a width.
fn with_parts(code: Code, w: Width, a: u64, b: u64) -> Option<u64>
    ensures { result ≡ steps.with_parts (class_of_code code) code w a b }
{
    match code.class() {
        Class::Binary => binary(code, w, a, b),
        Class::Shift => shifted(code, w, a, b),
        Class::Comparison => compared(code, w, a, b),
        _ => None,
    }
}

/// The value of an expression of one part.
#[cycle(value)]
fn value_of_one(
    symbols: &Symbols,
    regs: &Regs,
    memory: &Memories,
    code: Code,
    a: &Rtx,
    w: Width,
) -> Option<u64>
    ensures { result ≡ spec.value_of_one memory.now (class_of_code code) code
        (spec.reading_of symbols.now regs.now memory.now a.now) w }
{
    let own = part_width(code, a.mode, w)?;
    let part = value(symbols, regs, memory, a, own)?;
    with_part(memory, code, own, w, part)
}

/// The value of an expression of two parts; one of more has none.
#[cycle(value)]
fn value_of_parts(
    symbols: &Symbols,
    regs: &Regs,
    memory: &Memories,
    code: Code,
    parts: &[Rtx],
    w: Width,
) -> Option<u64>
    ensures { result ≡ spec.value_of_parts (class_of_code code) code
        (map (spec.reading_of symbols.now regs.now memory.now) parts.now) w }
{
    let [a, b] = parts else {
        return None;
    };
    let (own, other) = part_widths(code, a.mode, b.mode, w)?;
    let first = value(symbols, regs, memory, a, own)?;
    let second = value(symbols, regs, memory, b, other)?;
    with_parts(code, own, first, second)
}

/// The value of an expression in a width, or `None` where it has none.
#[cycle(value)]
#[tactic(auto, using(crate::proofs::Values::value_in))]
pub fn value(symbols: &Symbols, regs: &Regs, memory: &Memories, x: &Rtx, w: Width) -> Option<u64>
    ensures { result ≡ spec.value_of symbols.now regs.now memory.now x.now w }
{
    match x.kids.as_slice() {
        [] => value_of_none(symbols, regs, x.code.class(), x.number, x.name.bytes(), w),
        [a] => value_of_one(symbols, regs, memory, x.code, a, w),
        parts => value_of_parts(symbols, regs, memory, x.code, parts, w),
    }
}
