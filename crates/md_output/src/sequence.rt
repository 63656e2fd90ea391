//! Sequences with an operand.
ghost use Rattle.std.specs.Prelude.{◌≡◌, ◌++◌, OnOk};
ghost use Rattle.std.specs.Option.{option_copied};
ghost use Rattle.rv_text.specs.Body.{label_text};
ghost use Rattle.md_output.specs.Sequence as spec;

use crate::operand::{constant, print_plain, print_quote};
use md_text::Print;
use plain_data::Memory;
use rtx_tree::{Class, Code, Rtx};
use text_words::{print_count, print_number, print_text};

/// Appends a label of a function: `.LFUNCTION_UID`.
pub fn print_label(function: u32, uid: u64, out: &mut Vec<u8>) -> Result<(), Memory>
    ensures { OnOk result (out.new.items ≡ out.old.items ++ label_text function uid) }
{
    print_text(b".L", out)?;
    print_count(u64::from(function), out)?;
    print_text(b"_", out)?;
    print_count(uid, out)
}

/// Prints a number, or a symbol's name.
fn print_constant(x: &Rtx, out: &mut Vec<u8>) -> Result<(), Memory>
    ensures { OnOk result (out.new.items ≡ out.old.items ++ spec.constant_text x.now) }
{
    match x.code {
        Code::ConstInt => print_number(x.number, out),
        Code::SymbolRef => print_text(x.name.bytes(), out),
        _ => print_quote(out),
    }
}

/// Prints the negative of a number.
fn print_negative(x: &Rtx, out: &mut Vec<u8>) -> Result<(), Memory>
    ensures { OnOk result (out.new.items ≡ out.old.items ++ spec.negative_text x.now) }
{
    match constant(x) {
        Some(number) => print_number(number.wrapping_neg(), out),
        None => print_quote(out),
    }
}

/// Prints `zero` for the constant 0, else the operand by itself.
fn print_or_zero(x: &Rtx, out: &mut Vec<u8>) -> Result<(), Memory>
    ensures { OnOk result (out.new.items ≡ out.old.items ++ spec.or_zero_text x.now) }
{
    match constant(x) {
        Some(0) => print_text(b"zero", out),
        _ => print_plain(x, out),
    }
}

/// Prints `i`, but nothing for a register.
fn print_immediate(x: &Rtx, out: &mut Vec<u8>) -> Result<(), Memory>
    ensures { OnOk result (out.new.items ≡ out.old.items ++ spec.immediate_text x.now) }
{
    match x.code {
        Code::Reg => Ok(()),
        _ => print_text(b"i", out),
    }
}

/// Prints the code of a comparison.
fn print_comparison(x: &Rtx, out: &mut Vec<u8>) -> Result<(), Memory>
    ensures { OnOk result (out.new.items ≡ out.old.items ++ spec.comparison_text x.now) }
{
    match x.code.class() {
        Class::Comparison => print_text(x.code.name().as_bytes(), out),
        _ => print_quote(out),
    }
}

/// Prints the code of the reverse of a comparison.
fn print_reversed(x: &Rtx, out: &mut Vec<u8>) -> Result<(), Memory>
    ensures { OnOk result (out.new.items ≡ out.old.items ++ spec.reversed_text x.now) }
{
    match x.code.reversed() {
        Some(code) => print_text(code.name().as_bytes(), out),
        None => print_quote(out),
    }
}

/// The constant that numbers a label.
fn uid_part(x: &Rtx) -> &Rtx
    ensures { result.now ≡ spec.uid_part x.entry.now }
{
    match (x.code, x.kids.as_slice()) {
        (Code::LabelRef, [uid]) => uid,
        _ => x,
    }
}

/// Prints a label of the function.
fn print_label_operand(function: u32, x: &Rtx, out: &mut Vec<u8>) -> Result<(), Memory>
    ensures { OnOk result (out.new.items ≡ out.old.items ++ spec.label_operand function x.now) }
{
    match constant(uid_part(x)) {
        Some(uid) if uid >= 0 => print_label(function, uid.unsigned_abs(), out),
        _ => print_quote(out),
    }
}

fn print_shown(function: u32, print: Print, x: &Rtx, out: &mut Vec<u8>) -> Result<(), Memory>
    ensures { OnOk result (out.new.items ≡ out.old.items ++ spec.shown function print x.now) }
{
    match print {
        Print::Plain => print_plain(x, out),
        Print::Label => print_label_operand(function, x, out),
        Print::Constant => print_constant(x, out),
        Print::Negative => print_negative(x, out),
        Print::OrZero => print_or_zero(x, out),
        Print::Immediate => print_immediate(x, out),
        Print::Comparison => print_comparison(x, out),
        Print::Reversed => print_reversed(x, out),
    }
}

/// Prints what a sequence prints of its operand.
pub fn print_operand(
    function: u32,
    print: Print,
    operand: Option<&Rtx>,
    out: &mut Vec<u8>,
) -> Result<(), Memory>
    ensures { OnOk result (out.new.items ≡ out.old.items
        ++ spec.operand_text function print (option_copied operand.entry)) }
{
    match operand {
        Some(x) => print_shown(function, print, x, out),
        None => print_quote(out),
    }
}
