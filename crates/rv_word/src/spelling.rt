//! Which words a line has, whatever its registers and numbers are.
use crate::base::BaseOp;

/// Which register of a line stands in a word.
#[derive(Clone, Copy)]
pub enum Place {
    /// The line's `rd`.
    Rd,
    /// The line's `rs`.
    Rs,
    /// The line's `rt`.
    Rt,
    /// `zero`.
    Zero,
    /// `ra`.
    Ra,
}

/// Which number stands in a word.
#[derive(Clone, Copy)]
pub enum Number {
    /// The line's number.
    Given,
    /// A number that the mnemonic stands for.
    Fixed {
        /// The number.
        number: i64,
    },
}

/// Which words a line has.
#[derive(Clone, Copy)]
pub enum Spelling {
    /// One word.
    One {
        /// The instruction.
        op: BaseOp,
        /// Its register that is written.
        rd: Place,
        /// Its first register that is read.
        rs1: Place,
        /// Its second register that is read.
        rs2: Place,
        /// Its number.
        number: Number,
    },
    /// A branch to the line's label: one word where the label is near, else the opposite branch
    /// over a jump.
    Near {
        /// The branch.
        op: BaseOp,
        /// Its first register.
        rs1: Place,
        /// Its second register.
        rs2: Place,
    },
    /// A jump to the line's label.
    Leap,
    /// The line's number is put into the line's `rd`, in as many words as it takes.
    Long,
    /// The address of the line's symbol: its upper part is put into a register, and the lower part
    /// is the number of an instruction that reads and writes that register.
    Far {
        /// The instruction.
        op: BaseOp,
        /// The register.
        through: Place,
    },
}
