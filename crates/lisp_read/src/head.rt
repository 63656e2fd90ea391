//! The atom at the head of an expression, as `mem/c:SI`: its code, its flags and its mode.
ghost use Rattle.std.specs.Prelude.{◌≡◌, ◌==◌, ◌<◌, IfSome, length, true};
ghost use Rattle.std.specs.Option.{option_copied};
ghost use Rattle.lisp_read.specs.Head as spec;

use rtx_tree::{Code, Mode};

/// The code and the mode that open the list of an expression.
#[derive(Clone, Copy)]
pub struct Opening {
    /// What the expression is.
    pub code: Code,
    /// The mode that is written, or `Void`.
    pub mode: Mode,
}

fn is_byte(b: u8, byte: u8) -> bool
    ensures { result ≡ (b == byte) }
{
    b == byte
}

/// Where the first byte of this kind stands.
fn first_of(text: &[u8], byte: u8) -> Option<usize>
    ensures place { result ≡ spec.first_of byte text.now }
    ensures within { IfSome result (λ at. at < length text.now) }
{
    text.iter().position(|b| is_byte(*b, byte))
}

/// What stands before the first byte of this kind, and what stands behind it.
pub fn cut(text: &[u8], byte: u8) -> (&[u8], Option<&[u8]>)
    ensures front { result.0.now ≡ (spec.cut byte text.now).0 }
    ensures back { option_copied result.1 ≡ (spec.cut byte text.now).1 }
{
    match first_of(text, byte) {
        None => (text, None),
        Some(at) => (&text[..at], Some(&text[at + 1..])),
    }
}

/// The mode behind a colon, or `Void` where there is no colon.
fn mode_in(name: Option<&[u8]>) -> Option<Mode>
    ensures { result ≡ spec.mode_in (option_copied name.entry) }
{
    match name {
        None => Some(Mode::Void),
        Some(name) => Mode::named(name),
    }
}

/// Whether the letter is a flag.
fn is_flag(byte: u8) -> bool
    ensures { result ≡ spec.is_flag byte }
{
    matches!(byte, b'c' | b'f' | b'i' | b'j' | b's' | b'u' | b'v')
}

/// Whether the text is flags with a slash between each two.
pub fn are_flags(text: &[u8]) -> bool
    ensures { result ≡ spec.are_flags true text.now }
{
    let mut due = true;
    for b in text {
        let fits = if due { is_flag(*b) } else { *b == b'/' };
        if !fits {
            return false;
        }
        due = !due;
    }
    !due
}

/// Whether one of the flags says that memory is volatile.
fn is_volatile(flags: &[u8]) -> bool
    ensures { result ≡ spec.is_volatile flags.now }
{
    for b in flags {
        if *b == b'v' {
            return true;
        }
    }
    false
}

/// Whether the flags of a code are passed over.
fn flags_pass(code: Code, flags: Option<&[u8]>) -> bool
    ensures { result ≡ spec.flags_pass code (option_copied flags.entry) }
{
    match flags {
        None => true,
        Some(flags) => are_flags(flags) && !(matches!(code, Code::Mem) && is_volatile(flags)),
    }
}

/// A code with its flags.
fn flagged_code_in(text: &[u8]) -> Option<Code>
    ensures { result ≡ spec.flagged_code_in text.now }
{
    let (name, flags) = cut(text, b'/');
    let code = Code::written(name)?;
    if flags_pass(code, flags) {
        Some(code)
    } else {
        None
    }
}

/// The code and the mode that the atom at the head of an expression of a description writes, each
/// where there is such a one. Without a colon the mode is `Void`; a head with flags has no code.
pub fn head_words(text: &[u8]) -> (Option<Code>, Option<Mode>)
    ensures code { result.0 ≡ spec.code_of_head text.now }
    ensures mode { result.1 ≡ spec.mode_of_head text.now }
{
    let (front, name) = cut(text, b':');
    (Code::written(front), mode_in(name))
}

/// The head that an atom of a function writes, with flags or without.
pub fn head_in(text: &[u8]) -> Option<Opening>
    ensures { result ≡ spec.head_in text.now }
{
    let (front, name) = cut(text, b':');
    let code = flagged_code_in(front)?;
    let mode = mode_in(name)?;
    Some(Opening { code, mode })
}
