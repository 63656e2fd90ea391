//! The table of the base instructions: each with its format and its codes.
ghost use Rattle.std.specs.Prelude.{◌≡◌};
ghost use Rattle.rv_word.specs.Table as spec;

use crate::base::Format::{Branch, Count5, Count6, Immediate, Jump, Register, Store, Upper};
use crate::base::{BaseOp, Codes};

const LOAD: u8 = 0b000_0011;

const OP_IMM: u8 = 0b001_0011;

const OP_IMM_32: u8 = 0b001_1011;

const STORE: u8 = 0b010_0011;

const OP: u8 = 0b011_0011;

const LUI: u8 = 0b011_0111;

const OP_32: u8 = 0b011_1011;

const BRANCH: u8 = 0b110_0011;

const JALR: u8 = 0b110_0111;

const JAL: u8 = 0b110_1111;

macro_rules! codes {
    ($format:expr, $opcode:expr, $funct3:expr, $funct7:expr) => {
        Codes {
            format: $format,
            opcode: $opcode,
            funct3: $funct3,
            funct7: $funct7,
        }
    };
}

/// The codes of each base instruction, in the order of the instructions.
static CODES: [Codes; 61] = [
    // RV32I
    codes!(Upper, LUI, 0, 0),
    codes!(Jump, JAL, 0, 0),
    codes!(Immediate, JALR, 0, 0),
    codes!(Branch, BRANCH, 0, 0),
    codes!(Branch, BRANCH, 1, 0),
    codes!(Branch, BRANCH, 4, 0),
    codes!(Branch, BRANCH, 5, 0),
    codes!(Branch, BRANCH, 6, 0),
    codes!(Branch, BRANCH, 7, 0),
    codes!(Immediate, LOAD, 0, 0),
    codes!(Immediate, LOAD, 1, 0),
    codes!(Immediate, LOAD, 2, 0),
    codes!(Immediate, LOAD, 4, 0),
    codes!(Immediate, LOAD, 5, 0),
    codes!(Store, STORE, 0, 0),
    codes!(Store, STORE, 1, 0),
    codes!(Store, STORE, 2, 0),
    codes!(Immediate, OP_IMM, 0, 0),
    codes!(Immediate, OP_IMM, 2, 0),
    codes!(Immediate, OP_IMM, 3, 0),
    codes!(Immediate, OP_IMM, 4, 0),
    codes!(Immediate, OP_IMM, 6, 0),
    codes!(Immediate, OP_IMM, 7, 0),
    codes!(Register, OP, 0, 0),
    codes!(Register, OP, 0, 32),
    codes!(Register, OP, 1, 0),
    codes!(Register, OP, 2, 0),
    codes!(Register, OP, 3, 0),
    codes!(Register, OP, 4, 0),
    codes!(Register, OP, 5, 0),
    codes!(Register, OP, 5, 32),
    codes!(Register, OP, 6, 0),
    codes!(Register, OP, 7, 0),
    // RV64I: the counts of shifts have six bits
    codes!(Immediate, LOAD, 6, 0),
    codes!(Immediate, LOAD, 3, 0),
    codes!(Store, STORE, 3, 0),
    codes!(Count6, OP_IMM, 1, 0),
    codes!(Count6, OP_IMM, 5, 0),
    codes!(Count6, OP_IMM, 5, 32),
    codes!(Immediate, OP_IMM_32, 0, 0),
    codes!(Count5, OP_IMM_32, 1, 0),
    codes!(Count5, OP_IMM_32, 5, 0),
    codes!(Count5, OP_IMM_32, 5, 32),
    codes!(Register, OP_32, 0, 0),
    codes!(Register, OP_32, 0, 32),
    codes!(Register, OP_32, 1, 0),
    codes!(Register, OP_32, 5, 0),
    codes!(Register, OP_32, 5, 32),
    // RV32M
    codes!(Register, OP, 0, 1),
    codes!(Register, OP, 1, 1),
    codes!(Register, OP, 2, 1),
    codes!(Register, OP, 3, 1),
    codes!(Register, OP, 4, 1),
    codes!(Register, OP, 5, 1),
    codes!(Register, OP, 6, 1),
    codes!(Register, OP, 7, 1),
    // RV64M
    codes!(Register, OP_32, 0, 1),
    codes!(Register, OP_32, 4, 1),
    codes!(Register, OP_32, 5, 1),
    codes!(Register, OP_32, 6, 1),
    codes!(Register, OP_32, 7, 1),
];

impl BaseOp {
    /// The instruction's codes.
    pub fn codes(self) -> Codes
        ensures { result ≡ spec.codes_of self }
    {
        CODES[self as usize]
    }
}
