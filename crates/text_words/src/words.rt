//! Decimal numbers and symbols.
ghost use Rattle.std.specs.Prelude.{◌≡◌};
ghost use Rattle.std.specs.List.{list_all};
ghost use Rattle.std.specs.Str.{bytes_eq};
ghost use Rattle.text_words.specs.Words as spec;

use itoa::Buffer;
use std::str;

/// Whether two texts are the same.
pub fn same(text: &[u8], word: &[u8]) -> bool
    ensures { result ≡ bytes_eq text.now word.now }
{
    text == word
}

/// The number of 64 signed bits that a text writes in decimal, with no needless zero and no plus.
#[tactic(auto, using(crate::proofs::Numbers::number_if_printed))]
pub fn number_in(text: &[u8]) -> Option<i64>
    ensures { result ≡ spec.number_in text.now }
{
    let Ok(digits) = str::from_utf8(text) else {
        return None;
    };
    let Ok(number) = digits.parse::<i64>() else {
        return None;
    };
    let mut buffer = Buffer::new();
    if buffer.format(number).as_bytes() == text {
        Some(number)
    } else {
        None
    }
}

/// Whether a byte may stand in a symbol: none below 33, not 127, and none of `" ( ) , : \`.
pub fn is_symbol_byte(byte: u8) -> bool
    ensures { result ≡ spec.is_symbol_byte byte }
{
    33 <= byte && !matches!(byte, 127 | b',' | b':' | b'(' | b')' | b'"' | b'\\')
}

fn all_in_symbol(bytes: &[u8]) -> bool
    ensures { result ≡ list_all spec.is_symbol_byte bytes.now }
{
    for byte in bytes {
        if !is_symbol_byte(*byte) {
            return false;
        }
    }
    true
}

/// Whether the bytes are a symbol of the assembler's text: one byte or more, each of which may
/// stand in one.
pub fn is_symbol(bytes: &[u8]) -> bool
    ensures { result ≡ spec.is_symbol bytes.now }
{
    bytes.len() > 0 && all_in_symbol(bytes)
}
