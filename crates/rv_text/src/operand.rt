//! The operands of a line.

/// One of the parts of a line's text that commas part, with the part of the line that it names.
#[derive(Clone, Copy)]
pub enum Operand {
    /// The name of the register `rd`.
    Rd,
    /// The name of the register `rs`.
    Rs,
    /// The name of the register `rt`.
    Rt,
    /// The line's number, in decimal.
    Number {
        /// The least that it may be.
        least: i64,
        /// The greatest that it may be.
        most: i64,
    },
    /// The line's number and the register `rs`, as `8(sp)`.
    Place {
        /// The least that the number may be.
        least: i64,
        /// The greatest that it may be.
        most: i64,
    },
    /// The line's symbol or label.
    Target,
    /// `ra`, which names no part of the line.
    Ra,
}
