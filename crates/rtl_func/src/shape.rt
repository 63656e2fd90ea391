//! The shape of a tree: the mode and the parts that the class of its code asks for.
ghost use Rattle.std.specs.Prelude.{◌≡◌, ◌&&◌};
ghost use Rattle.std.specs.List.{list_all};
ghost use Rattle.rtl_func.specs.Shapes as spec;

use rtx_tree::{Class, Mode, Rtx};

/// What a tree is, by its code.
pub fn class_at(x: &Rtx) -> Class
    ensures { result ≡ spec.class_at x.now }
{
    x.code.class()
}

/// Whether a mode is one.
pub fn has_mode(mode: Mode) -> bool
    ensures { result ≡ spec.has_mode mode }
{
    0 < mode.bits()
}

/// Whether two modes are the same.
pub fn same_mode(a: Mode, b: Mode) -> bool
    ensures { result ≡ spec.same_mode a b }
{
    a.bits() == b.bits()
}

fn is_narrower(a: Mode, b: Mode) -> bool
    ensures { result ≡ spec.is_narrower a b }
{
    has_mode(a) && a.bits() < b.bits()
}

/// Whether a tree is a constant.
pub fn is_constant(x: &Rtx) -> bool
    ensures { result ≡ spec.is_constant x.now }
{
    matches!(class_at(x), Class::Constant)
}

/// Whether a tree is a register, memory, or the low part of a register.
pub fn is_place(x: &Rtx) -> bool
    ensures { result ≡ spec.is_place x.now }
{
    class_at(x).is_place()
}

fn is_value(x: &Rtx) -> bool
    ensures { result ≡ spec.is_value x.now }
{
    class_at(x).is_value()
}

/// Whether a tree is an effect.
pub fn is_effect(x: &Rtx) -> bool
    ensures { result ≡ spec.is_effect x.now }
{
    class_at(x).is_effect()
}

fn is_operand(mode: Mode, x: &Rtx) -> bool
    ensures { result ≡ spec.is_operand mode x.now }
{
    is_value(x) && (is_constant(x) || same_mode(mode, x.mode))
}

fn is_some_operand(x: &Rtx) -> bool
    ensures { result ≡ spec.is_some_operand x.now }
{
    is_value(x) && (is_constant(x) || has_mode(x.mode))
}

fn is_moded(x: &Rtx) -> bool
    ensures { result ≡ spec.is_moded x.now }
{
    is_value(x) && has_mode(x.mode)
}

fn are_compared(a: &Rtx, b: &Rtx) -> bool
    ensures { result ≡ spec.are_compared a.now b.now }
{
    (is_moded(a) && is_operand(a.mode, b)) || (is_constant(a) && is_moded(b))
}

fn is_register_number(reg: u64) -> bool
    ensures { result ≡ spec.is_register_number reg }
{
    reg <= 32 || (64 <= reg && reg < 2_147_483_712)
}

/// A register other than `virtual-stack-vars`.
fn is_true_register(x: &Rtx) -> bool
    ensures { result ≡ spec.is_true_register (spec.class_at x.now) (spec.number_at x.now) }
{
    matches!(class_at(x), Class::Register) && x.number.cast_unsigned() != 32
}

fn is_counter(x: &Rtx) -> bool
    ensures { result ≡ spec.is_counter_class (spec.class_at x.now) }
{
    matches!(class_at(x), Class::Counter)
}

fn is_label(x: &Rtx) -> bool
    ensures { result ≡ spec.is_label_class (spec.class_at x.now) }
{
    matches!(class_at(x), Class::Label)
}

fn is_scratch(x: &Rtx) -> bool
    ensures { result ≡ spec.is_scratch_class (spec.class_at x.now) }
{
    matches!(class_at(x), Class::Scratch)
}

fn is_jump_source(x: &Rtx) -> bool
    ensures { result ≡ spec.is_jump_source_class (spec.class_at x.now) }
{
    matches!(class_at(x), Class::Label | Class::Branch)
}

/// Whether a tree is a call.
pub fn is_call(x: &Rtx) -> bool
    ensures { result ≡ spec.is_call_class (spec.class_at x.now) }
{
    matches!(class_at(x), Class::Call)
}

fn is_set_to(target: &Rtx, source: &Rtx) -> bool
    ensures { result ≡ spec.is_set_to target.now source.now }
{
    (is_place(target) && (is_operand(target.mode, source) || is_call(source)))
        || (is_counter(target) && is_jump_source(source))
}

fn is_choice(test: &Rtx, label: &Rtx, next: &Rtx) -> bool
    ensures { result ≡ spec.is_choice test.now label.now next.now }
{
    matches!(class_at(test), Class::Comparison) && (is_label(label) && is_counter(next))
}

/// Whether a call may have these parts: memory and a constant.
pub fn is_called(place: &Rtx, size: &Rtx) -> bool
    ensures { result ≡ spec.is_called place.now size.now }
{
    matches!(class_at(place), Class::Memory) && is_constant(size)
}

fn are_effects(parts: &[Rtx]) -> bool
    ensures { result ≡ list_all spec.is_effect parts.now }
{
    parts.iter().all(|part| is_effect(part))
}

fn fits_none(row: Class, mode: Mode, reg: u64) -> bool
    ensures { result ≡ spec.fits_none row mode reg }
{
    match row {
        Class::Register => has_mode(mode) && is_register_number(reg),
        Class::Constant | Class::Return | Class::Counter => !has_mode(mode),
        Class::Symbol => same_mode(mode, Mode::DI),
        Class::Scratch => has_mode(mode),
        _ => false,
    }
}

fn fits_one(row: Class, mode: Mode, x: &Rtx) -> bool
    ensures { result ≡ spec.fits_one row mode x.now }
{
    match row {
        Class::Memory => has_mode(mode) && is_operand(Mode::DI, x),
        Class::Lowpart => is_true_register(x) && is_narrower(mode, x.mode),
        Class::Unary => has_mode(mode) && is_operand(mode, x),
        Class::Extension => is_value(x) && is_narrower(x.mode, mode),
        Class::Truncation => is_value(x) && is_narrower(mode, x.mode),
        Class::Use => !has_mode(mode) && is_value(x),
        Class::Clobber => !has_mode(mode) && (is_place(x) || is_scratch(x)),
        Class::Label => !has_mode(mode) && is_constant(x),
        _ => false,
    }
}

fn fits_two(row: Class, mode: Mode, a: &Rtx, b: &Rtx) -> bool
    ensures { result ≡ spec.fits_two row mode a.now b.now }
{
    match row {
        Class::Binary => has_mode(mode) && (is_operand(mode, a) && is_operand(mode, b)),
        Class::Shift => has_mode(mode) && (is_operand(mode, a) && is_some_operand(b)),
        Class::Comparison => (!has_mode(mode) || 32 <= mode.bits()) && are_compared(a, b),
        Class::Setting => !has_mode(mode) && is_set_to(a, b),
        Class::Call => !has_mode(mode) && is_called(a, b),
        _ => false,
    }
}

fn fits_three(row: Class, mode: Mode, a: &Rtx, b: &Rtx, c: &Rtx) -> bool
    ensures { result ≡ spec.fits_three row mode a.now b.now c.now }
{
    match row {
        Class::Branch => !has_mode(mode) && is_choice(a, b, c),
        _ => false,
    }
}

fn fits_parts(row: Class, mode: Mode, reg: u64, parts: &[Rtx]) -> bool
    ensures { result ≡ spec.fits_parts row mode reg parts.now }
{
    match parts {
        [] => fits_none(row, mode, reg),
        [a] => fits_one(row, mode, a),
        [a, b] => fits_two(row, mode, a, b),
        [a, b, c] => fits_three(row, mode, a, b, c),
        _ => false,
    }
}

fn fits_row(row: Class, mode: Mode, reg: u64, parts: &[Rtx]) -> bool
    ensures { result ≡ spec.fits_row row mode reg parts.now }
{
    match row {
        Class::Parallel => !has_mode(mode) && are_effects(parts),
        _ => fits_parts(row, mode, reg, parts),
    }
}

fn is_nameless(name: &[u8]) -> bool
    ensures { result ≡ spec.is_nameless name.now }
{
    name.is_empty()
}

/// Whether a tree has no number and no name that its row does not have.
fn is_bare(row: Class, number: u64, name: &[u8]) -> bool
    ensures { result ≡ spec.is_bare row number name.now }
{
    (matches!(row, Class::Register | Class::Constant) || number == 0)
        && (matches!(row, Class::Symbol) || is_nameless(name))
}

/// Whether a tree that is a call has its memory in mode SI.
pub fn has_call_mode(x: &Rtx) -> bool
    ensures { result ≡ spec.has_call_mode x.now }
{
    match (class_at(x), x.kids.as_slice()) {
        (Class::Call, [place, ..]) => same_mode(place.mode, Mode::SI),
        _ => true,
    }
}

/// Whether a tree has the parts of its row, each with the mode that the row asks for. The mode of a
/// call's memory is not asked.
pub fn is_shaped(x: &Rtx) -> bool
    ensures { result ≡ spec.is_shaped x.now }
{
    let row = class_at(x);
    let number = x.number.cast_unsigned();
    is_bare(row, number, x.name.bytes()) && fits_row(row, x.mode, number, x.kids.as_slice())
}
