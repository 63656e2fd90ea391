//! The operators of terms.
use bits64::Opaque;

/// The operator of a term, in the order of terms.
#[derive(Clone, Copy)]
pub enum Head {
    /// A register, by its number.
    Reg,
    /// A symbol's address, by its name.
    Sym,
    /// A sum, which is no node of its own.
    Sum,
    /// A product.
    Mul,
    /// An operator of which nothing is known but its number.
    Opaque(Opaque),
    /// Bits that are set in all parts.
    And,
    /// Bits that are set in some part.
    Ior,
    /// Bits that are set in an odd number of parts.
    Xor,
    /// A shift to the left.
    Shl,
    /// A shift to the right by zeros.
    Shr,
    /// A shift to the right by the sign.
    Sar,
    /// The low bits.
    Trunc,
    /// An extension by zeros.
    Zext,
    /// An extension by the sign.
    Sext,
    /// Whether a signed number is less than another.
    Lt,
    /// Whether an unsigned number is less than another.
    Ltu,
    /// Whether a number is 0.
    Eq,
    /// What a memory holds at an address; the memory has a number.
    Load,
}

/// An operator whose parts may stand in any order and grouping.
#[derive(Clone, Copy)]
pub enum Joint {
    /// A product.
    Mul,
    /// Bits that are set in all parts.
    And,
    /// Bits that are set in some part.
    Ior,
    /// Bits that are set in an odd number of parts.
    Xor,
}

/// With what an extension fills the bits above.
#[derive(Clone, Copy, Debug)]
pub enum Extension {
    /// With zeros: the unsigned number stays.
    Zero,
    /// With the sign: the signed number stays.
    Sign,
}
