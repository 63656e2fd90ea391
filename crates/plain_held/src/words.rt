//! The conditions and the statements of the plain forms, each head behind its parts.

use crate::row::Word;
use c_cond::{Binary, Call};
use rtx_tree::Mode::{DI, HI, QI, SI};

/// What no text is: a condition that is always true, and no statement.
pub const ALWAYS: &[Word] = &[Word::Number(1)];

pub const NOTHING: &[Word] = &[Word::Nothing];

// ---- of the number of an operand under test

/// From -2048 to 2047.
pub const IS_SHORT: &[Word] = &[
    Word::Ival,
    Word::Number(2048),
    Word::Negative,
    Word::Number(2047),
    Word::Call(Call::InRange),
];

pub const IS_ZERO: &[Word] = &[Word::Ival, Word::Number(0), Word::Binary(Binary::Equal)];

pub const TO_31: &[Word] = &[
    Word::Ival,
    Word::Number(0),
    Word::Number(31),
    Word::Call(Call::InRange),
];

pub const TO_63: &[Word] = &[
    Word::Ival,
    Word::Number(0),
    Word::Number(63),
    Word::Call(Call::InRange),
];

pub const VALUE_IS_ZERO: &[Word] = &[
    Word::Operand(0),
    Word::Call(Call::Intval),
    Word::Number(0),
    Word::Binary(Binary::Equal),
];

// ---- of moves

macro_rules! moves {
    ($mode:expr) => {
        &[
            Word::Operand(0),
            Word::Mode($mode),
            Word::Predicate("register_operand"),
            Word::Operand(1),
            Word::Mode($mode),
            Word::Predicate("reg_or_0_operand"),
            Word::Binary(Binary::Or),
        ]
    };
}

/// A register or 0 is moved.
pub const MOVES_QI: &[Word] = moves!(QI);

pub const MOVES_HI: &[Word] = moves!(HI);

pub const MOVES_SI: &[Word] = moves!(SI);

pub const MOVES_DI: &[Word] = moves!(DI);

macro_rules! forces {
    ($mode:expr) => {
        &[
            Word::Operand(0),
            Word::Mode($mode),
            Word::Predicate("register_operand"),
            Word::Not,
            Word::Operand(1),
            Word::Mode($mode),
            Word::Predicate("reg_or_0_operand"),
            Word::Not,
            Word::Binary(Binary::And),
            Word::Mode($mode),
            Word::Operand(1),
            Word::Call(Call::ForceReg),
            Word::Assign(1),
            Word::If,
            Word::Nothing,
            Word::Then,
        ]
    };
}

/// What is moved is put into a register first, unless it may be moved as it is.
pub const FORCES_QI: &[Word] = forces!(QI);

pub const FORCES_HI: &[Word] = forces!(HI);

pub const FORCES_SI: &[Word] = forces!(SI);

pub const FORCES_DI: &[Word] = forces!(DI);

// ---- of masks

/// Operand 2 is a mask of 16 or 32 ones.
pub const IS_MASK: &[Word] = &[
    Word::Operand(2),
    Word::Call(Call::Intval),
    Word::Number(65535),
    Word::Binary(Binary::Equal),
    Word::Operand(2),
    Word::Call(Call::Intval),
    Word::Number(4_294_967_295),
    Word::Binary(Binary::Equal),
    Word::Binary(Binary::Or),
];

/// The same, and 1.
pub const IS_SPLIT: &[Word] = &[
    Word::Operand(2),
    Word::Call(Call::Intval),
    Word::Number(65535),
    Word::Binary(Binary::Equal),
    Word::Operand(2),
    Word::Call(Call::Intval),
    Word::Number(4_294_967_295),
    Word::Binary(Binary::Equal),
    Word::Binary(Binary::Or),
    Word::Number(1),
    Word::Binary(Binary::And),
];

/// Operand 3 is the number of bits that the mask leaves out.
pub const MAKES_COUNT: &[Word] = &[
    Word::Operand(2),
    Word::Call(Call::Intval),
    Word::Number(65535),
    Word::Binary(Binary::Equal),
    Word::Number(48),
    Word::Number(32),
    Word::Choose,
    Word::Call(Call::GenInt),
    Word::Assign(3),
    Word::Nothing,
    Word::Then,
];

// ---- of comparisons

/// Operands 4 and 5 are new registers.
pub const MAKES_REGISTERS: &[Word] = &[
    Word::Mode(DI),
    Word::Call(Call::GenReg),
    Word::Assign(4),
    Word::Mode(DI),
    Word::Call(Call::GenReg),
    Word::Assign(5),
    Word::Nothing,
    Word::Then,
    Word::Then,
];

// ---- of sums

/// Operand 0 is not `sp`, and the sum of operands 1 and 2 is short.
pub const ARE_ADDED: &[Word] = &[
    Word::Operand(0),
    Word::Call(Call::Regno),
    Word::Number(2),
    Word::Binary(Binary::Unequal),
    Word::Operand(1),
    Word::Call(Call::Intval),
    Word::Operand(2),
    Word::Call(Call::Intval),
    Word::Binary(Binary::Plus),
    Word::Number(2048),
    Word::Negative,
    Word::Number(2047),
    Word::Call(Call::InRange),
    Word::Binary(Binary::And),
];

/// Operand 3 is the sum of operands 1 and 2.
pub const MAKES_SUM: &[Word] = &[
    Word::Operand(1),
    Word::Call(Call::Intval),
    Word::Operand(2),
    Word::Call(Call::Intval),
    Word::Binary(Binary::Plus),
    Word::Call(Call::GenInt),
    Word::Assign(3),
    Word::Nothing,
    Word::Then,
];
