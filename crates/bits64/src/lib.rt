//! Arithmetic on numbers of 8, 16, 32 and 64 bits, as the instructions of RV64IM compute them.
//!
//! Each operation takes 64-bit words and a width. It reads the low bits of the words that the width
//! has, signed or unsigned as its name says, and its contract says which number it returns. Every
//! operation is total: it answers at every word, zero divisors and shift counts past the width
//! included, and it takes no memory.
//!
//! An [`Operator`] is such an operation by its name: codes, lines and terms name operators. Its
//! number has no more bits than the width.
#![tactic(auto)]

ghost use Rattle.std.specs.Prelude.{◌≡◌, ◌+◌, ◌-◌, ◌*◌, ◌%◌, ◌^◌, ◌<◌, ◌≤◌, pos, ◌+ℤ◌, ◌-ℤ◌, ◌*ℤ◌, int_div, int_rem};
ghost use Rattle.std.specs.Int.{w64, int_shr, IsNonZero};
ghost use Rattle.bits64.specs.Words.{bits_of, bytes_of, low, signed, wrapped, sign_extended, zero_extended};
ghost use Rattle.bits64.specs.Words.{sum_of, difference_of, product_of, high_signed, high_unsigned, high_mixed};
ghost use Rattle.bits64.specs.Words.{DivisionOverflows, quotient_signed, quotient_unsigned, remainder_signed, remainder_unsigned};
ghost use Rattle.bits64.specs.Words.{shifted_left, shifted_right, shifted_arithmetic, less_signed, less_unsigned};

mod operator;

pub use operator::{Asks, Opaque, Operator, Relation, Taking, lacks};

/// How many bits of a word are meant.
#[derive(Clone, Copy, Debug)]
pub enum Width {
    /// A byte, GCC's `QI`.
    W8,
    /// Two bytes, GCC's `HI`.
    W16,
    /// Four bytes, GCC's `SI`.
    W32,
    /// Eight bytes, GCC's `DI`.
    W64,
}

impl Width {
    /// The number of bits: 8, 16, 32 or 64.
    pub fn bits(self) -> u32
        ensures value { result ≡ bits_of self }
        ensures bound { result ≤ 64 }
    {
        match self {
            Width::W8 => 8,
            Width::W16 => 16,
            Width::W32 => 32,
            Width::W64 => 64,
        }
    }

    /// The number of bytes: 1, 2, 4 or 8.
    pub fn bytes(self) -> u32
        ensures value { result ≡ bytes_of self }
        ensures bound { result ≤ 8 }
    {
        match self {
            Width::W8 => 1,
            Width::W16 => 2,
            Width::W32 => 4,
            Width::W64 => 8,
        }
    }

    /// The word whose bits of this width are all set: the greatest unsigned number, and -1.
    fn all_ones(self) -> u64
        ensures { result ≡ 2 ^ bits_of self - 1 }
    {
        match self {
            Width::W8 => 0xff,
            Width::W16 => 0xffff,
            Width::W32 => 0xffff_ffff,
            Width::W64 => u64::MAX,
        }
    }
}

/// The low bits.
pub fn trunc(x: u64, w: Width) -> u64
    ensures value { result ≡ low w x }
    ensures fits { result < 2 ^ bits_of w }
{
    match w {
        Width::W8 => x & 0xff,
        Width::W16 => x & 0xffff,
        Width::W32 => x & 0xffff_ffff,
        Width::W64 => x,
    }
}

/// The low bits, with the highest of them copied to all bits above.
pub fn sext(x: u64, w: Width) -> u64
    ensures value { result ≡ sign_extended w x }
    ensures signed { signed Width.W64 result ≡ signed w x }
{
    to_signed(x, w).cast_unsigned()
}

/// The low bits, with zeros above.
pub fn zext(x: u64, w: Width) -> u64
    ensures value { result ≡ zero_extended w x }
    ensures fits { result < 2 ^ bits_of w }
{
    trunc(x, w)
}

/// The low bits, read as two's complement.
fn to_signed(x: u64, w: Width) -> i64
    ensures { result ≡ signed w x }
{
    match w {
        Width::W8 => i64::from(((x & 0xff) as u8).cast_signed()),
        Width::W16 => i64::from(((x & 0xffff) as u16).cast_signed()),
        Width::W32 => i64::from(((x & 0xffff_ffff) as u32).cast_signed()),
        Width::W64 => x.cast_signed(),
    }
}

/// The word that a signed number wraps to.
fn wrap(z: i64, w: Width) -> u64
    ensures { result ≡ wrapped w z }
{
    trunc(z.cast_unsigned(), w)
}

/// The word that a wide number wraps to.
fn wrap_wide(z: i128, w: Width) -> u64
    ensures { result ≡ wrapped w z }
{
    let bits = z.cast_unsigned();
    match w {
        Width::W8 => (bits & 0xff) as u64,
        Width::W16 => (bits & 0xffff) as u64,
        Width::W32 => (bits & 0xffff_ffff) as u64,
        Width::W64 => (bits & 0xffff_ffff_ffff_ffff) as u64,
    }
}

/// The product of two signed words, which fits 128 bits.
fn product(a: i64, b: i64) -> i128
    ensures { result ≡ a *ℤ b }
{
    i128::from(a) * i128::from(b)
}

/// The product of a signed and an unsigned word, which fits 128 bits.
fn mixed_product(a: i64, b: u64) -> i128
    ensures { result ≡ a *ℤ pos b }
{
    i128::from(a) * i128::from(b)
}

/// The upper half of a product of two words.
fn high_half(product: i128, w: Width) -> u64
    ensures { result ≡ wrapped w (int_shr product (bits_of w)) }
{
    wrap_wide(product >> w.bits(), w)
}

/// The sum; a carry is dropped. Signed and unsigned words have the same sum.
pub fn add(a: u64, b: u64, w: Width) -> u64
    ensures value { result ≡ sum_of w a b }
    ensures fits { result < 2 ^ bits_of w }
    ensures signed { result ≡ wrapped w (signed w a +ℤ signed w b) }
{
    trunc(a.wrapping_add(b), w)
}

/// The difference; a borrow is dropped. Signed and unsigned words have the same difference.
pub fn sub(a: u64, b: u64, w: Width) -> u64
    ensures value { result ≡ difference_of w a b }
    ensures fits { result < 2 ^ bits_of w }
    ensures signed { result ≡ wrapped w (signed w a -ℤ signed w b) }
{
    trunc(a.wrapping_sub(b), w)
}

/// The lower half of the product. Signed and unsigned words have the same.
pub fn mul(a: u64, b: u64, w: Width) -> u64
    ensures value { result ≡ product_of w a b }
    ensures fits { result < 2 ^ bits_of w }
    ensures signed { result ≡ wrapped w (signed w a *ℤ signed w b) }
{
    trunc(a.wrapping_mul(b), w)
}

/// The upper half of the product of two signed words; `mul` gives the lower half.
pub fn mulh(a: u64, b: u64, w: Width) -> u64
    ensures value { result ≡ high_signed w a b }
    ensures fits { result < 2 ^ bits_of w }
    ensures whole { signed w result *ℤ pos (2 ^ bits_of w) +ℤ pos (product_of w a b) ≡
        signed w a *ℤ signed w b }
{
    high_half(product(to_signed(a, w), to_signed(b, w)), w)
}

/// The upper half of the product of two unsigned words; `mul` gives the lower half.
pub fn mulhu(a: u64, b: u64, w: Width) -> u64
    ensures value { result ≡ high_unsigned w a b }
    ensures fits { result < 2 ^ bits_of w }
    ensures whole { result * 2 ^ bits_of w + product_of w a b ≡ low w a * low w b }
{
    let whole = u128::from(trunc(a, w)) * u128::from(trunc(b, w));
    (whole >> w.bits()) as u64
}

/// The upper half of the product of a signed and an unsigned word, in this order; `mul` gives the
/// lower half.
pub fn mulhsu(a: u64, b: u64, w: Width) -> u64
    ensures value { result ≡ high_mixed w a b }
    ensures fits { result < 2 ^ bits_of w }
    ensures whole { signed w result *ℤ pos (2 ^ bits_of w) +ℤ pos (product_of w a b) ≡
        signed w a *ℤ pos (low w b) }
{
    high_half(mixed_product(to_signed(a, w), trunc(b, w)), w)
}

/// The quotient of two signed words, rounded toward zero. By zero it is -1; the least number
/// divided by -1 gives itself.
pub fn div(a: u64, b: u64, w: Width) -> u64
    ensures value { result ≡ quotient_signed w a b }
    ensures fits { result < 2 ^ bits_of w }
    ensures overflow { DivisionOverflows w a b → result ≡ low w a }
{
    match trunc(b, w) {
        0 => w.all_ones(),
        _ => quotient(to_signed(a, w), to_signed(b, w), w),
    }
}

/// The word that a quotient wraps to. Of -2 ^ 63 and -1 it is 2 ^ 63, which `i64` wraps first: the
/// word is the same.
fn quotient(a: i64, b: i64, w: Width) -> u64
    requires { IsNonZero w64 b }
    ensures { result ≡ wrapped w (int_div a b) }
{
    wrap(a.wrapping_div(b), w)
}

/// The quotient of two unsigned words, rounded down. By zero it is all ones.
pub fn udiv(a: u64, b: u64, w: Width) -> u64
    ensures value { result ≡ quotient_unsigned w a b }
    ensures fits { result < 2 ^ bits_of w }
{
    trunc(a, w).checked_div(trunc(b, w)).unwrap_or(w.all_ones())
}

/// The remainder of two signed words, with the sign of the dividend. By zero it is the dividend;
/// the least number divided by -1 leaves 0.
pub fn rem(a: u64, b: u64, w: Width) -> u64
    ensures value { result ≡ remainder_signed w a b }
    ensures fits { result < 2 ^ bits_of w }
    ensures overflow { DivisionOverflows w a b → result ≡ 0 }
    // The dividend is the divisor times the quotient plus the remainder, by zero too.
    ensures dividend { ¬ (DivisionOverflows w a b) →
        signed w (quotient_signed w a b) *ℤ signed w b +ℤ signed w result ≡ signed w a }
{
    match trunc(b, w) {
        0 => trunc(a, w),
        _ => remainder(to_signed(a, w), to_signed(b, w), w),
    }
}

/// The word that a remainder wraps to.
fn remainder(a: i64, b: i64, w: Width) -> u64
    requires { IsNonZero w64 b }
    ensures { result ≡ wrapped w (int_rem a b) }
{
    wrap(a.wrapping_rem(b), w)
}

/// The remainder of two unsigned words. By zero it is the dividend.
pub fn urem(a: u64, b: u64, w: Width) -> u64
    ensures value { result ≡ remainder_unsigned w a b }
    ensures fits { result < 2 ^ bits_of w }
    ensures dividend { low w b * quotient_unsigned w a b + result ≡ low w a }
{
    trunc(a, w).checked_rem(trunc(b, w)).unwrap_or(trunc(a, w))
}

/// A shift count, modulo the width.
fn count(b: u64, w: Width) -> u32
    ensures value { result ≡ b % bits_of w }
    ensures small { result < 64 }
{
    (b % u64::from(w.bits())) as u32
}

/// The word shifted to the left, with zeros below.
pub fn shl(a: u64, b: u64, w: Width) -> u64
    ensures value { result ≡ shifted_left w a b }
    ensures fits { result < 2 ^ bits_of w }
{
    trunc(a << count(b, w), w)
}

/// The word shifted to the right, with zeros above.
pub fn shr(a: u64, b: u64, w: Width) -> u64
    ensures value { result ≡ shifted_right w a b }
    ensures fits { result < 2 ^ bits_of w }
{
    trunc(a, w) >> count(b, w)
}

/// The word shifted to the right, with copies of its highest bit above.
pub fn sar(a: u64, b: u64, w: Width) -> u64
    ensures value { result ≡ shifted_arithmetic w a b }
    ensures fits { result < 2 ^ bits_of w }
    ensures signed { signed w result ≡ int_shr (signed w a) (b % bits_of w) }
{
    wrap(to_signed(a, w) >> count(b, w), w)
}

/// Whether the first of two signed words is the smaller.
pub fn lt(a: u64, b: u64, w: Width) -> bool
    ensures { result ≡ less_signed w a b }
{
    to_signed(a, w) < to_signed(b, w)
}

/// Whether the first of two unsigned words is the smaller.
pub fn ltu(a: u64, b: u64, w: Width) -> bool
    ensures { result ≡ less_unsigned w a b }
{
    trunc(a, w) < trunc(b, w)
}
