//! Operands by themselves.
ghost use Rattle.std.specs.Prelude.{◌≡◌, ◌<◌, ◌++◌, IfSome, OnOk};
ghost use Rattle.md_output.specs.Operand as spec;

use plain_data::Memory;
use rtx_tree::{Code, HARD_REGS, Rtx, reg_name};
use text_words::{print_number, print_text};

/// Prints what stands where nothing is said of an operand.
pub fn print_quote(out: &mut Vec<u8>) -> Result<(), Memory>
    ensures { OnOk result (out.new.items ≡ out.old.items ++ spec.quote) }
{
    print_text(b"\"", out)
}

/// The number of a hard register.
fn hard_number(x: &Rtx) -> Option<u8>
    ensures { result ≡ spec.hard_number x.now }
{
    match x.code {
        Code::Reg if 0 <= x.number && x.number < i64::from(HARD_REGS) => Some(x.number as u8),
        _ => None,
    }
}

/// The value of a constant.
pub fn constant(x: &Rtx) -> Option<i64>
    ensures { result ≡ spec.constant x.now }
{
    match x.code {
        Code::ConstInt => Some(x.number),
        _ => None,
    }
}

/// The base and the offset of an address.
fn address(x: &Rtx) -> Option<(u8, i64)>
    ensures { result ≡ spec.address x.now }
{
    match (x.code, x.kids.as_slice()) {
        (Code::Plus, [base, offset]) => Some((hard_number(base)?, constant(offset)?)),
        _ => Some((hard_number(x)?, 0)),
    }
}

fn print_register(x: &Rtx, out: &mut Vec<u8>) -> Result<(), Memory>
    ensures { OnOk result (out.new.items ≡ out.old.items
        ++ spec.register_text (spec.hard_number x.now)) }
{
    match hard_number(x) {
        Some(reg) => print_text(reg_name(reg).as_bytes(), out),
        None => print_quote(out),
    }
}

/// Prints `offset(base)`.
fn print_place(place: Option<(u8, i64)>, out: &mut Vec<u8>) -> Result<(), Memory>
    requires { IfSome place (λ p. p.0 < 32) }
    ensures { OnOk result (out.new.items ≡ out.old.items ++ spec.place_text place) }
{
    match place {
        Some((base, offset)) => {
            print_number(offset, out)?;
            print_text(b"(", out)?;
            print_text(reg_name(base).as_bytes(), out)?;
            print_text(b")", out)
        }
        None => print_quote(out),
    }
}

fn print_memory(kids: &[Rtx], out: &mut Vec<u8>) -> Result<(), Memory>
    ensures { OnOk result (out.new.items ≡ out.old.items ++ spec.memory_text kids.now) }
{
    match kids {
        [x] => print_place(address(x), out),
        _ => print_quote(out),
    }
}

/// Prints a register's name, a number, a symbol's name, or the place of memory.
pub fn print_plain(x: &Rtx, out: &mut Vec<u8>) -> Result<(), Memory>
    ensures { OnOk result (out.new.items ≡ out.old.items ++ spec.plain_text x.now) }
{
    match x.code {
        Code::Reg => print_register(x, out),
        Code::ConstInt => print_number(x.number, out),
        Code::SymbolRef => print_text(x.name.bytes(), out),
        Code::Mem => print_memory(x.kids.as_slice(), out),
        _ => print_quote(out),
    }
}
