//! What a text of C is cut into.
ghost use Rattle.std.specs.Prelude.{◌≡◌};
ghost use Rattle.c_words.specs.Tokens as spec;

use crate::head::Binary;
use rtx_tree::Name;

/// A piece of a text that has a meaning as a whole.
#[derive(Drop)]
pub enum Token {
    /// A number, in decimal or hexadecimal.
    Number(u64),
    /// A name or a word of C.
    Word(Name),
    /// An operator between two operands. `-` may also stand before one.
    Operator(Binary),
    /// Any other byte, as `(` or `!`.
    Mark(u8),
    /// What begins with a digit and is no number.
    Bad,
}

fn operator_with_equals(first: u8) -> Option<Binary>
    ensures { result ≡ spec.operator_with_equals first }
{
    match first {
        b'=' => Some(Binary::Equal),
        b'!' => Some(Binary::Unequal),
        b'<' => Some(Binary::LessEqual),
        b'>' => Some(Binary::GreaterEqual),
        _ => None,
    }
}

/// The operator that two bytes are.
pub fn operator_of_two(first: u8, second: u8) -> Option<Binary>
    ensures { result ≡ spec.operator_of_two first second }
{
    match second {
        b'|' if first == b'|' => Some(Binary::Or),
        b'&' if first == b'&' => Some(Binary::And),
        b'=' => operator_with_equals(first),
        b'<' if first == b'<' => Some(Binary::ShiftLeft),
        b'>' if first == b'>' => Some(Binary::ShiftRight),
        _ => None,
    }
}

/// The token that one byte is.
pub fn token_of_byte(byte: u8) -> Token
    ensures { result ≡ spec.token_of_byte byte }
{
    match byte {
        b'|' => Token::Operator(Binary::BitOr),
        b'^' => Token::Operator(Binary::BitXor),
        b'&' => Token::Operator(Binary::BitAnd),
        b'<' => Token::Operator(Binary::Less),
        b'>' => Token::Operator(Binary::Greater),
        b'+' => Token::Operator(Binary::Plus),
        b'-' => Token::Operator(Binary::Minus),
        b'*' => Token::Operator(Binary::Times),
        _ => Token::Mark(byte),
    }
}
