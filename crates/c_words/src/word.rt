//! What words name: modes, codes, facts of the target, constants.
ghost use Rattle.std.specs.Prelude.{◌≡◌, map, not, IfOk};
ghost use Rattle.std.specs.List.{list_all};
ghost use Rattle.c_words.specs.Words as spec;

use plain_data::Memory;
use rtx_tree::{Code, Mode};
use std::alloc::Global;

/// The mode that a word is in C, or `None` where it is none.
pub fn mode_named(word: &[u8]) -> Option<Mode>
    ensures { result ≡ spec.mode_named word.now }
{
    if word == "VOIDmode".as_bytes() {
        Some(Mode::Void)
    } else if word == "QImode".as_bytes() {
        Some(Mode::QI)
    } else if word == "HImode".as_bytes() {
        Some(Mode::HI)
    } else if word == "SImode".as_bytes() {
        Some(Mode::SI)
    } else if word == "DImode".as_bytes() {
        Some(Mode::DI)
    } else {
        None
    }
}

/// Whether a word names a fact of the target.
pub fn is_target(word: &[u8]) -> bool
    ensures { result ≡ spec.is_target word.now }
{
    let prefix = if word.len() < 7 { word } else { &word[..7] };
    prefix == "TARGET_".as_bytes()
}

/// Whether a fact of the target holds.
pub fn target_holds(word: &[u8]) -> bool
    ensures { result ≡ spec.target_holds word.now }
{
    word == "TARGET_64BIT".as_bytes()
        || (word == "TARGET_MUL".as_bytes() || word == "TARGET_DIV".as_bytes())
}

/// Whether a byte is a small letter.
pub fn is_small(byte: u8) -> bool
    ensures { result ≡ spec.is_small byte }
{
    b'a' <= byte && byte <= b'z'
}

fn small(byte: u8) -> u8
    ensures { result ≡ spec.small byte }
{
    if b'A' <= byte && byte <= b'Z' {
        byte + 32
    } else {
        byte
    }
}

fn has_no_small(word: &[u8]) -> bool
    ensures { result ≡ list_all (λ b. not (spec.is_small b)) word.now }
{
    for byte in word {
        if is_small(*byte) {
            return false;
        }
    }
    true
}

fn in_small(alloc: Global, word: &[u8]) -> Result<Vec<u8>, Memory>
    ensures { IfOk result (λ letters. letters.items ≡ map spec.small word.now) }
{
    let mut letters = Vec::new(alloc);
    for byte in word {
        letters.push(small(*byte))?;
    }
    Ok(letters)
}

/// The code that a word is in C, or `None` where it is none.
pub fn code_in_capitals(alloc: Global, word: &[u8]) -> Result<Option<Code>, Memory>
    ensures { IfOk result (λ code. code ≡ spec.code_in_capitals word.now) }
{
    if !has_no_small(word) {
        return Ok(None);
    }
    let name = in_small(alloc, word)?;
    Ok(Code::written(name.as_slice()))
}
