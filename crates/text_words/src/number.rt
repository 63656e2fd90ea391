//! Numbers of C.
ghost use Rattle.std.specs.Prelude.{◌≡◌, ◌<◌, ◌≤◌};
ghost use Rattle.text_words.specs.Numbers as spec;

/// The number that a digit of this base stands for.
fn digit_in(base: u64, byte: u8) -> Option<u64>
    ensures { result ≡ spec.digit_in base byte }
{
    let digit = match byte {
        b'0'..=b'9' => byte - b'0',
        b'a'..=b'f' => byte - b'a' + 10,
        b'A'..=b'F' => byte - b'A' + 10,
        _ => 16,
    };
    if (digit as u64) < base {
        Some(digit as u64)
    } else {
        None
    }
}

/// The number with one more digit behind it, where it has no more than 64 bits.
fn with_digit(value: u64, base: u64, digit: u64) -> Option<u64>
    ensures { result ≡ spec.with_digit value base digit }
{
    let Some(shifted) = value.checked_mul(base) else {
        return None;
    };
    shifted.checked_add(digit)
}

fn read_digits(base: u64, digits: &[u8]) -> Option<u64>
    ensures { result ≡ spec.read_digits base 0 digits.now }
{
    let mut value = 0;
    for byte in digits {
        let Some(digit) = digit_in(base, *byte) else {
            return None;
        };
        let Some(longer) = with_digit(value, base, digit) else {
            return None;
        };
        value = longer;
    }
    Some(value)
}

/// The number of 64 bits that a text writes as C does, in decimal with no needless zero or in
/// hexadecimal, or `None` where it writes none.
pub fn c_number_in(text: &[u8]) -> Option<u64>
    ensures { result ≡ spec.c_number_in text.now }
{
    match text {
        [] => None,
        [b'0'] => Some(0),
        [b'0', b'x' | b'X', first, ..] => read_digits(16, &text[2..]),
        [b'0', ..] => None,
        _ => read_digits(10, text),
    }
}
