//! The words of standard names, and rows of the table that they make.
ghost use Rattle.std.specs.Prelude.{◌≡◌, ◌++◌, IfOk};
ghost use Rattle.std.specs.List.{list_all, flat_map};
ghost use Rattle.rtl_func.specs.Shapes as shapes;
ghost use Rattle.std_name.specs.Names as spec;
ghost use Rattle.std_name.specs.Operands as operands;

use crate::operands::fits;
use crate::standard::{Standard, StandardOperand};
use plain_data::{Items, Memory};
use rtl_func::has_mode;
use rtx_tree::{Code, Mode, Name};
use std::alloc::Global;
use text_words::print_text;

fn letters(mode: Mode) -> &'static str
    ensures { result.now ≡ spec.letters mode }
{
    match mode {
        Mode::QI => "qi",
        Mode::HI => "hi",
        Mode::SI => "si",
        Mode::DI => "di",
        Mode::Void => "",
    }
}

/// The word of an operation. Any other source of a value is moved.
pub fn word_of(code: Code) -> &'static str
    ensures { result.now ≡ spec.word_of code }
{
    match code {
        Code::Plus => "add",
        Code::Minus => "sub",
        Code::Mult => "mul",
        Code::Div => "div",
        Code::Udiv => "udiv",
        Code::Mod => "mod",
        Code::Umod => "umod",
        Code::And => "and",
        Code::Ior => "ior",
        Code::Xor => "xor",
        Code::Ashift => "ashl",
        Code::Ashiftrt => "ashr",
        Code::Lshiftrt => "lshr",
        Code::Neg => "neg",
        Code::Not => "one_cmpl",
        Code::SignExtend => "extend",
        Code::ZeroExtend => "zero_extend",
        Code::Truncate => "trunc",
        _ => "mov",
    }
}

fn name_of(alloc: Global, word: &str, modes: &[Mode], count: &str) -> Result<Name, Memory>
    ensures { IfOk result (λ name.
        name ≡ word.now ++ (flat_map spec.letters modes.now ++ count.now)) }
{
    let mut text = Vec::new(alloc);
    print_text(word.as_bytes(), &mut text)?;
    for mode in modes {
        print_text(letters(*mode).as_bytes(), &mut text)?;
    }
    print_text(count.as_bytes(), &mut text)?;
    Ok(Name::from_vec(text))
}

fn have_modes(modes: &[Mode]) -> bool
    ensures { result ≡ list_all shapes.has_mode modes.now }
{
    modes.iter().all(|mode| has_mode(*mode))
}

fn all_fit(items: &[StandardOperand]) -> bool
    ensures { result ≡ list_all operands.fits items.now }
{
    items.iter().all(|operand| fits(operand))
}

/// A row: a word, the modes that the name tells, a count of operands, and the operands. There is
/// none where a mode is wanting, or where what stands as an operand is none.
pub fn row(
    alloc: Global,
    word: &str,
    modes: &[Mode],
    count: &str,
    operands: Items<StandardOperand>,
) -> Result<Option<Standard>, Memory>
    ensures { IfOk result (λ r. r ≡ spec.row word.now modes.now count.now operands) }
{
    if !(have_modes(modes) && all_fit(operands.as_slice())) {
        return Ok(None);
    }
    Ok(Some(Standard {
        name: name_of(alloc, word, modes, count)?,
        operands,
    }))
}
