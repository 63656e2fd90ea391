//! The numbers of constants.
ghost use Rattle.std.specs.Prelude.{◌≡◌};
ghost use Rattle.md_iter.specs.Definition as spec;

use text_words::{c_number_in, same};

/// The number behind a minus; `-0` is none.
fn negated_in(text: &[u8]) -> Option<i64>
    ensures { result ≡ spec.negated_in text.now }
{
    if same(text, b"0") {
        None
    } else {
        Some(c_number_in(text)?.cast_signed().wrapping_neg())
    }
}

/// The number that a constant is defined as, in 64 signed bits.
pub fn number_in(text: &[u8]) -> Option<i64>
    ensures { result ≡ spec.number_in text.now }
{
    match text {
        [b'-', rest @ ..] => negated_in(rest),
        _ => Some(c_number_in(text)?.cast_signed()),
    }
}
