//! The words of patterns: numbers, names of constants, and registers.
ghost use Rattle.std.specs.Prelude.{◌≡◌};
ghost use Rattle.md_pattern.specs.Word as spec;

use lisp_read::below;
use name_places::{Constants, constant_named};
use text_words::number_in;

/// A number, or the name of a constant.
pub fn number_of(constants: &Constants, text: &[u8]) -> Option<i64>
    ensures { result ≡ spec.number_of constants.now text.now }
{
    match number_in(text) {
        Some(number) => Some(number),
        None => constant_named(constants, text),
    }
}

/// A hard register, by its number.
pub fn register_of(constants: &Constants, text: &[u8]) -> Option<u32>
    ensures { result ≡ spec.register_of constants.now text.now }
{
    below(32, number_of(constants, text)?)
}

/// The number of an operand.
pub fn operand_number(text: &[u8]) -> Option<u32>
    ensures { result ≡ spec.operand_number text.now }
{
    below(4_294_967_296, number_in(text)?)
}
