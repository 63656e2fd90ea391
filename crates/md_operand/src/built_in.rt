//! The predicates that every description has.
ghost use Rattle.std.specs.Prelude.{◌≡◌, length, bytes_eq, None, Some, if◌then◌else◌};
ghost use Rattle.md_operand.specs.declared.built_in.BuiltIn.TheVariants as owns;
ghost use Rattle.md_operand.specs.Operand as spec;

use crate::addresses::{frame_reference, legitimate_address};
use crate::kinds::{accepts_mode, has_mode, is_comparison, is_memory, is_register, is_symbol};
use rtx_tree::{Mode, Rtx};

/// A predicate that is there without a definition.
#[derive(Clone, Copy)]
pub enum BuiltIn {
    /// The one without a name, which accepts anything.
    Anything,
    /// `register_operand`
    Register,
    /// `const_int_operand`
    ConstInt,
    /// `immediate_operand`
    Immediate,
    /// `memory_operand`
    Memory,
    /// `nonimmediate_operand`
    Nonimmediate,
    /// `nonmemory_operand`
    Nonmemory,
    /// `general_operand`
    General,
    /// `address_operand`
    Address,
    /// `comparison_operator`
    Comparison,
    /// `ordered_comparison_operator`
    OrderedComparison,
    /// `frame_operand`
    Frame,
}

fn is_within(least: i64, greatest: i64, n: i64) -> bool
    ensures { result ≡ spec.is_within least greatest n }
{
    least <= n && n <= greatest
}

/// Whether a number is the sign extension of its low bits in a mode.
fn is_extended(mode: Mode, n: i64) -> bool
    ensures { result ≡ spec.is_extended mode n }
{
    match mode {
        Mode::QI => is_within(-128, 127, n),
        Mode::HI => is_within(-32_768, 32_767, n),
        Mode::SI => is_within(-2_147_483_648, 2_147_483_647, n),
        Mode::Void | Mode::DI => true,
    }
}

fn register_operand(mode: Mode, x: &Rtx) -> bool
    ensures { result ≡ spec.register_operand mode x.now }
{
    is_register(x) && has_mode(mode, x)
}

fn const_int_operand(mode: Mode, x: &Rtx) -> bool
    ensures { result ≡ spec.const_int_operand mode x.now }
{
    x.is_constant() && is_extended(mode, x.number)
}

fn symbol_operand(mode: Mode, x: &Rtx) -> bool
    ensures { result ≡ spec.symbol_operand mode x.now }
{
    is_symbol(x) && accepts_mode(mode, Mode::DI)
}

fn immediate_operand(mode: Mode, x: &Rtx) -> bool
    ensures { result ≡ spec.immediate_operand mode x.now }
{
    const_int_operand(mode, x) || symbol_operand(mode, x)
}

fn memory_operand(mode: Mode, x: &Rtx) -> bool
    ensures { result ≡ spec.memory_operand mode x.now }
{
    is_memory(x) && has_mode(mode, x)
}

fn general_operand(mode: Mode, x: &Rtx) -> bool
    ensures { result ≡ spec.accepts owns.General mode x.now }
{
    register_operand(mode, x) || (immediate_operand(mode, x) || memory_operand(mode, x))
}

/// The predicate with a name of 17 bytes.
fn of_seventeen(name: &[u8]) -> Option<BuiltIn>
    requires { length name.now ≡ 17 }
    ensures { result ≡ spec.built_in_named name.now }
{
    if name == b"const_int_operand".as_slice() {
        Some(BuiltIn::ConstInt)
    } else if name == b"immediate_operand".as_slice() {
        Some(BuiltIn::Immediate)
    } else if name == b"nonmemory_operand".as_slice() {
        Some(BuiltIn::Nonmemory)
    } else {
        None
    }
}

/// The predicate with a name of 15 bytes.
fn of_fifteen(name: &[u8]) -> Option<BuiltIn>
    requires { length name.now ≡ 15 }
    ensures { result ≡ spec.built_in_named name.now }
{
    if name == b"general_operand".as_slice() {
        Some(BuiltIn::General)
    } else if name == b"address_operand".as_slice() {
        Some(BuiltIn::Address)
    } else {
        None
    }
}

/// The predicate, where a name is its own.
fn alone(name: &[u8], text: &[u8], own: BuiltIn) -> Option<BuiltIn>
    ensures { result ≡ (if bytes_eq name.now text.now then Some own else None) }
{
    if name == text { Some(own) } else { None }
}

impl BuiltIn {
    /// The predicate with a name, which is compared with names of its length alone.
    pub fn named(name: &[u8]) -> Option<BuiltIn>
        ensures { result ≡ spec.built_in_named name.now }
    {
        match name.len() {
            0 => Some(BuiltIn::Anything),
            13 => alone(name, b"frame_operand", BuiltIn::Frame),
            14 => alone(name, b"memory_operand", BuiltIn::Memory),
            15 => of_fifteen(name),
            16 => alone(name, b"register_operand", BuiltIn::Register),
            17 => of_seventeen(name),
            19 => alone(name, b"comparison_operator", BuiltIn::Comparison),
            20 => alone(name, b"nonimmediate_operand", BuiltIn::Nonimmediate),
            27 => alone(
                name,
                b"ordered_comparison_operator",
                BuiltIn::OrderedComparison,
            ),
            _ => None,
        }
    }

    /// Whether the predicate accepts a tree in a mode; a mode that is none accepts every mode.
    pub fn accepts(self, mode: Mode, x: &Rtx) -> bool
        ensures { result ≡ spec.accepts self mode x.now }
    {
        match self {
            BuiltIn::Anything => true,
            BuiltIn::Register => register_operand(mode, x),
            BuiltIn::ConstInt => const_int_operand(mode, x),
            BuiltIn::Immediate => immediate_operand(mode, x),
            BuiltIn::Memory => memory_operand(mode, x),
            BuiltIn::Nonimmediate => register_operand(mode, x) || memory_operand(mode, x),
            BuiltIn::Nonmemory => register_operand(mode, x) || immediate_operand(mode, x),
            BuiltIn::General => general_operand(mode, x),
            BuiltIn::Address => legitimate_address(x),
            BuiltIn::Comparison | BuiltIn::OrderedComparison => is_comparison(x)
                && has_mode(mode, x),
            BuiltIn::Frame => frame_reference(x) && has_mode(mode, x),
        }
    }
}
