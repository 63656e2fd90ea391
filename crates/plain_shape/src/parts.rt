//! Whether a tree is what a shape has at a place.
ghost use Rattle.std.specs.Prelude.{◌≡◌};
ghost use Rattle.rtx_tree.specs.Code.{same_code};
ghost use Rattle.plain_shape.specs.Plain as spec;

use crate::shape::{Part, Source};
use md_operand::{BuiltIn, has_mode, is_symbol};
use rtx_tree::{Code, Mode, Rtx};

fn is_register_or_constant(mode: Mode, x: &Rtx) -> bool
    ensures { result ≡ spec.register_or_constant mode x.now }
{
    BuiltIn::Register.accepts(mode, x) || BuiltIn::ConstInt.accepts(mode, x)
}

fn is_count_in(mode: Mode, x: &Rtx) -> bool
    ensures { result ≡ spec.is_count_in mode x.now }
{
    x.is_constant() && (0 <= x.number && x.number < i64::from(mode.bits()))
}

fn is_count(mode: Mode, x: &Rtx) -> bool
    ensures { result ≡ spec.is_count mode x.now }
{
    BuiltIn::Register.accepts(Mode::QI, x) || is_count_in(mode, x)
}

/// Whether a tree is an operand of a shape.
pub fn is_part(part: Part, x: &Rtx) -> bool
    ensures { result ≡ spec.is_part part x.now }
{
    match part {
        Part::Register(mode) => BuiltIn::Register.accepts(mode, x),
        Part::AnyRegister => BuiltIn::Register.accepts(Mode::Void, x),
        Part::Constant(mode) => BuiltIn::ConstInt.accepts(mode, x),
        Part::RegisterOrConstant(mode) => is_register_or_constant(mode, x),
        Part::Count(mode) => is_count(mode, x),
        Part::Memory(mode) => BuiltIn::Memory.accepts(mode, x),
        Part::RegisterOrMemory(mode) => BuiltIn::Nonimmediate.accepts(mode, x),
        Part::Symbol => is_symbol(x),
        Part::Frame => BuiltIn::Frame.accepts(Mode::DI, x),
    }
}

/// Whether trees are one operand.
pub fn is_one(a: Part, kids: &[Rtx]) -> bool
    ensures { result ≡ spec.is_one a kids.now }
{
    match kids {
        [x] => is_part(a, x),
        _ => false,
    }
}

fn are_two(a: Part, b: Part, kids: &[Rtx]) -> bool
    ensures { result ≡ spec.are_two a b kids.now }
{
    match kids {
        [x, y] => is_part(a, x) && is_part(b, y),
        _ => false,
    }
}

fn same_code(a: Code, b: Code) -> bool
    ensures { result ≡ same_code a b }
{
    a.name() == b.name()
}

fn is_operation(code: Code, mode: Mode, x: &Rtx) -> bool
    ensures { result ≡ spec.is_operation code mode x.now }
{
    same_code(x.code, code) && has_mode(mode, x)
}

fn is_test(to: Mode, from: Mode, x: &Rtx) -> bool
    ensures { result ≡ spec.is_test to from x.now }
{
    BuiltIn::Comparison.accepts(to, x)
        && are_two(
            Part::Register(from),
            Part::RegisterOrConstant(from),
            x.kids.as_slice(),
        )
}

fn is_target(part: Part, x: &Rtx) -> bool
    ensures { result ≡ spec.is_target part x.now }
{
    has_mode(Mode::SI, x) && matches!(x.code, Code::Mem) && is_one(part, x.kids.as_slice())
}

/// Whether a tree is a call of a part.
pub fn is_call(part: Part, x: &Rtx) -> bool
    ensures { result ≡ spec.is_call part x.now }
{
    match (x.code, x.kids.as_slice()) {
        (Code::Call, [place, size]) => is_target(part, place) && size.is_constant(),
        _ => false,
    }
}

/// Whether a tree is what a shape sets something to.
pub fn is_source(source: Source, x: &Rtx) -> bool
    ensures { result ≡ spec.is_source source x.now }
{
    match source {
        Source::Only(part) => is_part(part, x),
        Source::Unary(code, mode, a) => {
            is_operation(code, mode, x) && is_one(a, x.kids.as_slice())
        }
        Source::Binary(code, mode, a, b) => {
            is_operation(code, mode, x) && are_two(a, b, x.kids.as_slice())
        }
        Source::Comparison(to, from) => is_test(to, from, x),
        Source::Call(part) => is_call(part, x),
    }
}

fn is_uid(kids: &[Rtx]) -> bool
    ensures { result ≡ spec.is_uid kids.now }
{
    match kids {
        [uid] => uid.is_constant(),
        _ => false,
    }
}

/// Whether a tree is `(label_ref UID)`.
pub fn is_label(x: &Rtx) -> bool
    ensures { result ≡ spec.is_label x.now }
{
    matches!(x.code, Code::LabelRef) && is_uid(x.kids.as_slice())
}

fn are_ways(label: &Rtx, next: &Rtx) -> bool
    ensures { result ≡ spec.are_ways label.now next.now }
{
    is_label(label) && next.is_pc()
}

fn are_choice(mode: Mode, kids: &[Rtx]) -> bool
    ensures { result ≡ spec.are_choice mode kids.now }
{
    match kids {
        [test, label, next] => is_test(Mode::Void, mode, test) && are_ways(label, next),
        _ => false,
    }
}

/// Whether a tree is a choice between a label and the next instruction, by a comparison in the mode.
pub fn is_choice(mode: Mode, x: &Rtx) -> bool
    ensures { result ≡ spec.is_choice mode x.now }
{
    matches!(x.code, Code::IfThenElse) && are_choice(mode, x.kids.as_slice())
}
