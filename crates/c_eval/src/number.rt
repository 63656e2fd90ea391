//! What the operators of C do to signed numbers of 64 bits that wrap.
ghost use Rattle.std.specs.Prelude.{◌≡◌, ◌↔◌, ◌≤ℤ◌, ◌<ℤ◌, pos, IsTrue};
ghost use Rattle.c_cond.specs.c_words.declared.head.Binary.TheVariants as Binary;
ghost use Rattle.c_eval.specs.Numbers as spec;
ghost use Rattle.c_eval.specs.Value as values;

use c_cond::{Binary, Unary};

/// 1 for true and 0 for false.
pub fn truth(holds: bool) -> i64
    ensures { result ≡ spec.truth holds }
{
    if holds { 1 } else { 0 }
}

pub fn unary_of(operator: Unary, a: i64) -> i64
    ensures { result ≡ spec.unary_of operator a }
{
    match operator {
        Unary::Not => truth(a == 0),
        Unary::Complement => !a,
        Unary::Negative => a.wrapping_neg(),
    }
}

/// Whether a number may be shifted so many times: 0 to 63.
fn is_count(count: i64) -> bool
    ensures { IsTrue result ↔ ((pos 0 ≤ℤ count) × (count <ℤ pos 64)) }
{
    0 <= count && count < 64
}

fn shifted_left(a: i64, count: i64) -> Option<i64>
    ensures { result ≡ spec.binary_of Binary.ShiftLeft a count }
{
    if is_count(count) {
        Some(a << count)
    } else {
        None
    }
}

fn shifted_right(a: i64, count: i64) -> Option<i64>
    ensures { result ≡ spec.binary_of Binary.ShiftRight a count }
{
    if is_count(count) {
        Some(a >> count)
    } else {
        None
    }
}

/// An operator on two numbers.
pub fn binary_of(operator: Binary, a: i64, b: i64) -> Option<i64>
    ensures { result ≡ spec.binary_of operator a b }
{
    let value = match operator {
        Binary::Or => truth(a != 0 || b != 0),
        Binary::And => truth(a != 0 && b != 0),
        Binary::BitOr => a | b,
        Binary::BitXor => a ^ b,
        Binary::BitAnd => a & b,
        Binary::Equal => truth(a == b),
        Binary::Unequal => truth(a != b),
        Binary::Less => truth(a < b),
        Binary::LessEqual => truth(a <= b),
        Binary::Greater => truth(a > b),
        Binary::GreaterEqual => truth(a >= b),
        Binary::ShiftLeft => return shifted_left(a, b),
        Binary::ShiftRight => return shifted_right(a, b),
        Binary::Plus => a.wrapping_add(b),
        Binary::Minus => a.wrapping_sub(b),
        Binary::Times => a.wrapping_mul(b),
    };
    Some(value)
}

/// An operator on parts that may have no value. A part that C does not evaluate does not count.
pub fn joined(operator: Binary, a: Option<i64>, b: Option<i64>) -> Option<i64>
    ensures { result ≡ spec.joined operator a b }
{
    let a = a?;
    match operator {
        Binary::Or if a != 0 => Some(1),
        Binary::And if a == 0 => Some(0),
        _ => binary_of(operator, a, b?),
    }
}

/// `? :` on parts that may have no value.
pub fn chosen(test: Option<i64>, first: Option<i64>, second: Option<i64>) -> Option<i64>
    ensures { result ≡ spec.chosen test first second }
{
    if test? == 0 { second } else { first }
}

/// Whether a number is in a range, its bounds among it.
pub fn in_range(a: i64, low: i64, high: i64) -> i64
    ensures { result ≡ values.in_range a low high }
{
    truth(low <= a && a <= high)
}
