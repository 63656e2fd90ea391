//! What a line does, whatever its registers and numbers are.
use bits64::{Operator, Relation, Width};

/// Where a number comes from.
#[derive(Clone, Copy, Debug)]
pub enum Source {
    /// The register `rs`.
    First,
    /// The register `rt`.
    Second,
    /// The register `ra`.
    ReturnAddress,
    /// The line's number.
    Immediate,
    /// A number that the mnemonic stands for.
    Constant {
        /// The number.
        number: i64,
    },
}

/// What stands above a number of less than 64 bits that is loaded.
#[derive(Clone, Copy, Debug)]
pub enum Extension {
    /// Copies of its highest bit.
    Sign,
    /// Zeros.
    Zero,
}

/// What a line does.
#[derive(Clone, Copy, Debug)]
pub enum Action {
    /// `rd` becomes an operator's number, which is extended by its sign from the width.
    Compute {
        /// The operator.
        operator: Operator,
        /// How many bits it works on.
        width: Width,
        /// The operator's first number.
        left: Source,
        /// The operator's second number.
        right: Source,
    },
    /// `rd` becomes what stands in memory at `rs` plus the line's number.
    Load {
        /// How much is loaded.
        width: Width,
        /// What stands above it.
        extension: Extension,
    },
    /// The low bits of `rt` are put into memory at `rs` plus the line's number.
    Store {
        /// How much is stored.
        width: Width,
    },
    /// `rd` becomes the address of the line's symbol.
    SymbolAddress,
    /// The next line is that behind the line's label, where a relation holds of two numbers of 64
    /// bits.
    Branch {
        /// The relation.
        relation: Relation,
        /// The first number.
        left: Source,
        /// The second number.
        right: Source,
    },
    /// The next line is that behind the line's label.
    Jump,
    /// The function at the line's symbol is called.
    Call,
    /// The function at the address that `rs` holds is called.
    CallRegister,
    /// Returns to the address that a register holds.
    Return {
        /// The register.
        through: Source,
    },
}
