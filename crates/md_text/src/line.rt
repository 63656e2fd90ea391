//! One text of a template.
ghost use Rattle.std.specs.Prelude.{◌≡◌, IfOk, ◌<◌, length};
ghost use Rattle.md_text.specs.Constraint as letters;
ghost use Rattle.md_text.specs.Template as spec;

use crate::lists::behind;
use crate::template::{Line, Piece, Print};
use plain_data::{Items, Memory};
use std::alloc::Global;
use text_words::number_in;

fn is_digit(byte: u8) -> bool
    ensures { result ≡ letters.is_digit byte }
{
    b'0' <= byte && byte <= b'9'
}

/// The digits at the front.
fn digits(text: &[u8]) -> &[u8]
    ensures { result.now ≡ spec.digits text.entry.now }
{
    for (at, byte) in text.iter().enumerate() {
        if !is_digit(*byte) {
            return &text[..at];
        }
    }
    text
}

/// The number of an operand that a text writes: of 32 bits, in decimal and without a needless zero.
pub fn operand_number(text: &[u8]) -> Option<u32>
    ensures { result ≡ spec.operand_number text.now }
{
    u32::try_from(number_in(text)?).ok()
}

/// An operand whose number stands at the front, behind so many bytes of the sequence.
fn operand(print: Print, before: usize, text: &[u8]) -> Option<(Piece, usize)>
    requires { before < 2 }
    ensures { result ≡ spec.operand print before text.now }
{
    let digits = digits(text);
    let number = operand_number(digits)?;
    Some((Piece::Operand { print, number }, before + digits.len()))
}

/// What may stand between `%` and the number of an operand.
fn print_of(byte: u8) -> Option<Print>
    ensures { result ≡ spec.print_of byte }
{
    match byte {
        b'l' => Some(Print::Label),
        b'c' => Some(Print::Constant),
        b'n' => Some(Print::Negative),
        b'z' => Some(Print::OrZero),
        b'i' => Some(Print::Immediate),
        b'C' => Some(Print::Comparison),
        b'N' => Some(Print::Reversed),
        _ => None,
    }
}

fn behind_percent(text: &[u8]) -> Option<(Piece, usize)>
    ensures { result ≡ spec.behind_percent text.now }
{
    match text {
        [] => None,
        [b'%', ..] => Some((Piece::Byte(b'%'), 1)),
        [b'=', ..] => Some((Piece::Uid, 1)),
        [byte, ..] if is_digit(*byte) => operand(Print::Plain, 0, text),
        [byte, rest @ ..] => operand(print_of(*byte)?, 1, rest),
    }
}

fn behind_backslash(text: &[u8]) -> Option<(Piece, usize)>
    ensures { result ≡ spec.behind_backslash text.now }
{
    match text {
        [b't', ..] => Some((Piece::Byte(b'\t'), 1)),
        [b'n', ..] => Some((Piece::Byte(b'\n'), 1)),
        [b'\\', ..] => Some((Piece::Byte(b'\\'), 1)),
        [b'"', ..] => Some((Piece::Byte(b'"'), 1)),
        _ => None,
    }
}

/// What stands at the front of a template, and how many bytes it has behind its first.
fn piece_at(text: &[u8]) -> Option<(Piece, usize)>
    ensures { result ≡ spec.piece_at text.now }
{
    match text {
        [] => None,
        [b'%', rest @ ..] => behind_percent(rest),
        [b'\\', rest @ ..] => behind_backslash(rest),
        [b'{' | b'}', ..] => None,
        [byte, ..] => Some((Piece::Byte(*byte), 0)),
    }
}

/// The pieces of one text; `None` where a sequence in it is outside.
pub fn line_of(alloc: Global, text: &[u8]) -> Result<Option<Line>, Memory>
    ensures { IfOk result (λ line. line ≡ spec.line_of text.now) }
{
    let mut pieces = Items::new(alloc);
    let mut taken = 0;
    for at in 0..text.len() {
        if taken > 0 {
            taken -= 1;
            continue;
        }
        let Some((piece, more)) = piece_at(behind(text, at)) else {
            return Ok(None);
        };
        pieces.push(piece)?;
        taken = more;
    }
    Ok(Some(pieces))
}
