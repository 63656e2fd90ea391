//! What may stand in the place of a placeholder.
use rtx_tree::{Code, Mode};

/// What may stand in the place of a placeholder. Its slot is a register that isn't chosen yet.
#[derive(Clone, Copy)]
pub enum Candidate {
    /// The slot, in a mode.
    Register {
        /// The mode.
        mode: Mode,
    },
    /// A constant.
    Number {
        /// The constant.
        number: i64,
    },
    /// A symbol.
    Symbol,
    /// Memory at the slot and an offset.
    Memory {
        /// The mode.
        mode: Mode,
        /// The offset.
        offset: i64,
    },
    /// Memory at the stack pointer and an offset.
    StackMemory {
        /// The mode.
        mode: Mode,
        /// The offset.
        offset: i64,
    },
    /// The sum of the slot and an offset.
    Address {
        /// The offset.
        offset: i64,
    },
    /// An operator's code and mode.
    Operator {
        /// The code.
        code: Code,
        /// The mode.
        mode: Mode,
    },
    /// The same tree as another operand.
    Same {
        /// The operand's number.
        operand: u8,
    },
}
