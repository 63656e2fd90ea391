//! The bytes that a text of cases stands for, and the text that shows bytes.
ghost use Rattle.std.specs.Prelude.{◌<◌, IfSome};

use crate::told::Told;

/// The number of a lowercase hexadecimal digit.
fn digit(byte: u8) -> Option<u8>
    ensures { IfSome result (λ number. number < 16) }
{
    match byte {
        b'0'..=b'9' => Some(byte - b'0'),
        b'a'..=b'f' => Some(byte - b'a' + 10),
        _ => None,
    }
}

/// The byte of an escape's two digits.
fn escaped(high: u8, low: u8) -> Option<u8> {
    if let Some(high) = digit(high)
        && let Some(low) = digit(low)
    {
        Some(high * 16 + low)
    } else {
        None
    }
}

/// Appends what stands behind a backquote: the byte of the two digits at its begin, and the rest.
/// Whether there are two.
fn push_escape(piece: &[u8], out: &mut Told) -> bool {
    if let [high, low, rest @ ..] = piece
        && let Some(byte) = escaped(*high, *low)
    {
        out.push(&[byte]);
        out.push(rest);
        true
    } else {
        false
    }
}

/// Appends the bytes that a text of one line stands for. Whether each backquote begins an escape.
pub fn push_word(text: &str, out: &mut Told) -> bool {
    let mut pieces = text.split('`');
    out.text(pieces.next().unwrap_or(""));
    let mut is_read = true;
    for piece in pieces {
        is_read &= push_escape(piece.as_bytes(), out);
    }
    is_read
}

/// Appends the bytes of a line, and of its newline unless a backquote ends it. Whether each other
/// backquote begins an escape.
fn push_line(line: &str, out: &mut Told) -> bool {
    if let Some(text) = line.strip_suffix("`") {
        return push_word(text, out);
    }
    let is_read = push_word(line, out);
    out.text("\n");
    is_read
}

/// Appends so many newlines.
fn push_blanks(blanks: u64, out: &mut Told) {
    for _ in 0..blanks {
        out.text("\n");
    }
}

/// Appends the bytes that some lines stand for, without the blank lines at their end. Whether each
/// backquote is an escape.
pub fn push_bytes(lines: &[&str], out: &mut Told) -> bool {
    let mut is_read = true;
    let mut blanks = 0u64;
    for line in lines {
        if line.is_empty() {
            blanks = blanks.saturating_add(1);
        } else {
            push_blanks(blanks, out);
            blanks = 0;
            is_read &= push_line(line, out);
        }
    }
    is_read
}

/// The hexadecimal digit of a number.
fn hexadecimal(number: u8) -> u8 {
    match number {
        0..=9 => number + b'0',
        10..=15 => number - 10 + b'a',
        _ => b'?',
    }
}

/// Whether a byte is shown as itself. A newline is where the text may have several lines.
fn is_plain(byte: u8, is_long: bool) -> bool {
    match byte {
        b'`' => false,
        b'\n' => is_long,
        b'\t' | b' '..=b'~' => true,
        _ => false,
    }
}

/// Appends the text that shows bytes: each control byte but the tab, the backquote, and each byte
/// from 127 on as an escape. A newline is a newline where the text may have several lines.
pub fn push_shown(bytes: &[u8], is_long: bool, out: &mut Told) {
    for byte in bytes {
        if is_plain(*byte, is_long) {
            out.push(&[*byte]);
        } else {
            out.push(&[b'`', hexadecimal(*byte / 16), hexadecimal(*byte % 16)]);
        }
    }
}
