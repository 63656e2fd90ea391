//! The one table of the lines: each mnemonic with its operands and with what a line of it does.
ghost use Rattle.std.specs.Prelude.{◌≡◌, option_map, map};
ghost use Rattle.rv_text.specs.Table as spec;
ghost use Rattle.rv_text.specs.Table.{row_view};

use crate::action::Action::{
    Branch, Call, CallRegister, Compute, Jump, Load, Return, Store, SymbolAddress,
};
use crate::action::Extension::{Sign, Zero};
use crate::action::Source::{Constant, First, Immediate, ReturnAddress, Second};
use crate::action::{Action, Extension, Source};
use crate::mnemonic::{MNEMONICS, Mnemonic};
use crate::operand::Operand;
use bits64::Opaque::{Div, Mulh, Mulhsu, Mulhu, Rem, Udiv, Urem};
use bits64::Operator::{Add, And, Ior, Mul, Not, Opaque, Sar, Shl, Shr, Sub, Test, Xor};
use bits64::Relation::{Eq, Ge, Geu, Lt, Ltu, Ne};
use bits64::Width::{W8, W16, W32, W64};
use bits64::{Operator, Relation, Width};

/// A mnemonic with its operands and with what a line of it does.
#[derive(Clone, Copy)]
pub struct Row {
    /// The mnemonic.
    pub name: &'static str,
    /// The operands, in the order of the text.
    pub operands: &'static [Operand],
    /// What a line of it does.
    pub action: Action,
}

const SHORT: Operand = Operand::Number {
    least: -2048,
    most: 2047,
};

const LONG: Operand = Operand::Number {
    least: i64::MIN,
    most: i64::MAX,
};

const UPPER: Operand = Operand::Number {
    least: 0,
    most: 1_048_575,
};

const COUNT64: Operand = Operand::Number { least: 0, most: 63 };

const COUNT32: Operand = Operand::Number { least: 0, most: 31 };

const PLACE: Operand = Operand::Place {
    least: -2048,
    most: 2047,
};

const ONLY_REGISTER: Operand = Operand::Place { least: 0, most: 0 };

const RD_RS_RT: &[Operand] = &[Operand::Rd, Operand::Rs, Operand::Rt];

const RD_RS_SHORT: &[Operand] = &[Operand::Rd, Operand::Rs, SHORT];

const RD_RS_COUNT64: &[Operand] = &[Operand::Rd, Operand::Rs, COUNT64];

const RD_RS_COUNT32: &[Operand] = &[Operand::Rd, Operand::Rs, COUNT32];

const RD_UPPER: &[Operand] = &[Operand::Rd, UPPER];

const RD_MEMORY: &[Operand] = &[Operand::Rd, PLACE];

const RT_MEMORY: &[Operand] = &[Operand::Rt, PLACE];

const RS_RT_LABEL: &[Operand] = &[Operand::Rs, Operand::Rt, Operand::Target];

const RS_LABEL: &[Operand] = &[Operand::Rs, Operand::Target];

const RD_LONG: &[Operand] = &[Operand::Rd, LONG];

const RD_SYMBOL: &[Operand] = &[Operand::Rd, Operand::Target];

const RD_RS: &[Operand] = &[Operand::Rd, Operand::Rs];

const LABEL: &[Operand] = &[Operand::Target];

const RA_RS: &[Operand] = &[Operand::Ra, ONLY_REGISTER];

const RS: &[Operand] = &[Operand::Rs];

const NOTHING: &[Operand] = &[];

const ZERO: Source = Constant { number: 0 };

const ONE: Source = Constant { number: 1 };

const TWELVE: Source = Constant { number: 12 };

macro_rules! row {
    ($name:expr, $operands:expr, $action:expr $(,)?) => {
        Row {
            name: $name,
            operands: $operands,
            action: $action,
        }
    };
}

macro_rules! compute {
    ($operator:expr, $width:expr, $left:expr, $right:expr) => {
        Compute {
            operator: $operator,
            width: $width,
            left: $left,
            right: $right,
        }
    };
}

macro_rules! load {
    ($width:expr, $extension:expr) => {
        Load {
            width: $width,
            extension: $extension,
        }
    };
}

macro_rules! branch {
    ($relation:expr, $left:expr, $right:expr) => {
        Branch {
            relation: $relation,
            left: $left,
            right: $right,
        }
    };
}

/// The row of each mnemonic, in the order of the mnemonics.
static ROWS: [Row; 86] = [
    // RV32I "Integer Register-Register Operations"
    row!("add", RD_RS_RT, compute!(Add, W64, First, Second)),
    row!("sub", RD_RS_RT, compute!(Sub, W64, First, Second)),
    row!("and", RD_RS_RT, compute!(And, W64, First, Second)),
    row!("or", RD_RS_RT, compute!(Ior, W64, First, Second)),
    row!("xor", RD_RS_RT, compute!(Xor, W64, First, Second)),
    row!("sll", RD_RS_RT, compute!(Shl, W64, First, Second)),
    row!("srl", RD_RS_RT, compute!(Shr, W64, First, Second)),
    row!("sra", RD_RS_RT, compute!(Sar, W64, First, Second)),
    row!("slt", RD_RS_RT, compute!(Test(Lt), W64, First, Second)),
    row!("sltu", RD_RS_RT, compute!(Test(Ltu), W64, First, Second)),
    // RV64I "Integer Register-Register Operations": the same on 32 bits
    row!("addw", RD_RS_RT, compute!(Add, W32, First, Second)),
    row!("subw", RD_RS_RT, compute!(Sub, W32, First, Second)),
    row!("sllw", RD_RS_RT, compute!(Shl, W32, First, Second)),
    row!("srlw", RD_RS_RT, compute!(Shr, W32, First, Second)),
    row!("sraw", RD_RS_RT, compute!(Sar, W32, First, Second)),
    // M "Multiplication Operations" and "Division Operations"
    row!("mul", RD_RS_RT, compute!(Mul, W64, First, Second)),
    row!("mulh", RD_RS_RT, compute!(Opaque(Mulh), W64, First, Second)),
    row!(
        "mulhsu",
        RD_RS_RT,
        compute!(Opaque(Mulhsu), W64, First, Second)
    ),
    row!(
        "mulhu",
        RD_RS_RT,
        compute!(Opaque(Mulhu), W64, First, Second)
    ),
    row!("div", RD_RS_RT, compute!(Opaque(Div), W64, First, Second)),
    row!("divu", RD_RS_RT, compute!(Opaque(Udiv), W64, First, Second)),
    row!("rem", RD_RS_RT, compute!(Opaque(Rem), W64, First, Second)),
    row!("remu", RD_RS_RT, compute!(Opaque(Urem), W64, First, Second)),
    row!("mulw", RD_RS_RT, compute!(Mul, W32, First, Second)),
    row!("divw", RD_RS_RT, compute!(Opaque(Div), W32, First, Second)),
    row!(
        "divuw",
        RD_RS_RT,
        compute!(Opaque(Udiv), W32, First, Second)
    ),
    row!("remw", RD_RS_RT, compute!(Opaque(Rem), W32, First, Second)),
    row!(
        "remuw",
        RD_RS_RT,
        compute!(Opaque(Urem), W32, First, Second)
    ),
    // RV32I and RV64I "Integer Register-Immediate Instructions"
    row!("addi", RD_RS_SHORT, compute!(Add, W64, First, Immediate)),
    row!("andi", RD_RS_SHORT, compute!(And, W64, First, Immediate)),
    row!("ori", RD_RS_SHORT, compute!(Ior, W64, First, Immediate)),
    row!("xori", RD_RS_SHORT, compute!(Xor, W64, First, Immediate)),
    row!(
        "slti",
        RD_RS_SHORT,
        compute!(Test(Lt), W64, First, Immediate)
    ),
    row!(
        "sltiu",
        RD_RS_SHORT,
        compute!(Test(Ltu), W64, First, Immediate)
    ),
    row!("addiw", RD_RS_SHORT, compute!(Add, W32, First, Immediate)),
    row!("slli", RD_RS_COUNT64, compute!(Shl, W64, First, Immediate)),
    row!("srli", RD_RS_COUNT64, compute!(Shr, W64, First, Immediate)),
    row!("srai", RD_RS_COUNT64, compute!(Sar, W64, First, Immediate)),
    row!("slliw", RD_RS_COUNT32, compute!(Shl, W32, First, Immediate)),
    row!("srliw", RD_RS_COUNT32, compute!(Shr, W32, First, Immediate)),
    row!("sraiw", RD_RS_COUNT32, compute!(Sar, W32, First, Immediate)),
    // RV64I "Integer Register-Immediate Instructions": the 20-bit immediate, 12 zeros below it,
    // sign-extended from 32 bits
    row!("lui", RD_UPPER, compute!(Shl, W32, Immediate, TWELVE)),
    // RV32I and RV64I "Load and Store Instructions"
    row!("lb", RD_MEMORY, load!(W8, Sign)),
    row!("lbu", RD_MEMORY, load!(W8, Zero)),
    row!("lh", RD_MEMORY, load!(W16, Sign)),
    row!("lhu", RD_MEMORY, load!(W16, Zero)),
    row!("lw", RD_MEMORY, load!(W32, Sign)),
    row!("lwu", RD_MEMORY, load!(W32, Zero)),
    row!("ld", RD_MEMORY, load!(W64, Sign)),
    row!("sb", RT_MEMORY, Store { width: W8 }),
    row!("sh", RT_MEMORY, Store { width: W16 }),
    row!("sw", RT_MEMORY, Store { width: W32 }),
    row!("sd", RT_MEMORY, Store { width: W64 }),
    // RV32I "Conditional Branches", and the assembly manual's branches with their registers
    // exchanged
    row!("beq", RS_RT_LABEL, branch!(Eq, First, Second)),
    row!("bne", RS_RT_LABEL, branch!(Ne, First, Second)),
    row!("blt", RS_RT_LABEL, branch!(Lt, First, Second)),
    row!("bge", RS_RT_LABEL, branch!(Ge, First, Second)),
    row!("bltu", RS_RT_LABEL, branch!(Ltu, First, Second)),
    row!("bgeu", RS_RT_LABEL, branch!(Geu, First, Second)),
    row!("bgt", RS_RT_LABEL, branch!(Lt, Second, First)),
    row!("ble", RS_RT_LABEL, branch!(Ge, Second, First)),
    row!("bgtu", RS_RT_LABEL, branch!(Ltu, Second, First)),
    row!("bleu", RS_RT_LABEL, branch!(Geu, Second, First)),
    row!("beqz", RS_LABEL, branch!(Eq, First, ZERO)),
    row!("bnez", RS_LABEL, branch!(Ne, First, ZERO)),
    row!("blez", RS_LABEL, branch!(Ge, ZERO, First)),
    row!("bgez", RS_LABEL, branch!(Ge, First, ZERO)),
    row!("bltz", RS_LABEL, branch!(Lt, First, ZERO)),
    row!("bgtz", RS_LABEL, branch!(Lt, ZERO, First)),
    // pseudo-instructions of the assembly manual that set a register
    row!("li", RD_LONG, compute!(Add, W64, Immediate, ZERO)),
    row!("la", RD_SYMBOL, SymbolAddress),
    row!("mv", RD_RS, compute!(Add, W64, First, ZERO)),
    row!("not", RD_RS, compute!(Not, W64, First, ZERO)),
    row!("neg", RD_RS, compute!(Sub, W64, ZERO, First)),
    row!("negw", RD_RS, compute!(Sub, W32, ZERO, First)),
    row!("sext.w", RD_RS, compute!(Add, W32, First, ZERO)),
    row!("seqz", RD_RS, compute!(Test(Ltu), W64, First, ONE)),
    row!("snez", RD_RS, compute!(Test(Ltu), W64, ZERO, First)),
    row!("sltz", RD_RS, compute!(Test(Lt), W64, First, ZERO)),
    row!("sgtz", RD_RS, compute!(Test(Lt), W64, ZERO, First)),
    // RV32I "Unconditional Jumps", and pseudo-instructions made of them
    row!("j", LABEL, Jump),
    row!("call", LABEL, Call),
    row!("jalr", RA_RS, CallRegister),
    row!("jr", RS, Return { through: First }),
    row!(
        "ret",
        NOTHING,
        Return {
            through: ReturnAddress
        }
    ),
    // RV32I "NOP Instruction": a sum into register zero
    row!("nop", NOTHING, compute!(Add, W64, ZERO, ZERO)),
];

impl Mnemonic {
    /// The mnemonic's row of the table.
    pub fn row(self) -> Row
        ensures { row_view result ≡ spec.row_of self }
    {
        ROWS[self as usize]
    }
}

/// The row of the first of the mnemonics that has this name.
fn find_row(mnemonics: &[Mnemonic], name: &[u8]) -> Option<Row>
    ensures { option_map row_view result ≡ spec.find_row name.now (map spec.row_of mnemonics.now) }
{
    for mnemonic in mnemonics {
        let row = mnemonic.row();
        if row.name.as_bytes() == name {
            return Some(row);
        }
    }
    None
}

/// The row of the mnemonic with this name, or `None` where no mnemonic has it.
pub fn row_named(name: &[u8]) -> Option<Row>
    ensures { option_map row_view result ≡ spec.row_named name.now }
{
    find_row(&MNEMONICS, name)
}
