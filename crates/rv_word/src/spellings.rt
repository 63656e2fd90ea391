//! The table of the mnemonics' words.
ghost use Rattle.std.specs.Prelude.{◌≡◌};
ghost use Rattle.rv_word.specs.Sequence.{SequencesDo};
ghost use Rattle.rv_word.specs.Spelling as spec;
ghost use Rattle.rv_word.specs.Step.{OneWordDoes, OppositeDoes};

use crate::base::BaseOp;
use crate::spelling::Number::Given;
use crate::spelling::Place::{Ra, Rd, Rs, Rt, Zero};
use crate::spelling::Spelling::{Leap, Long};
use crate::spelling::{Number, Spelling};
use rv_text::Mnemonic;

const NONE: Number = Number::Fixed { number: 0 };

const ONE: Number = Number::Fixed { number: 1 };

const MINUS_ONE: Number = Number::Fixed { number: -1 };

macro_rules! one {
    ($op:ident, $rd:expr, $rs1:expr, $rs2:expr, $number:expr) => {
        Spelling::One {
            op: BaseOp::$op,
            rd: $rd,
            rs1: $rs1,
            rs2: $rs2,
            number: $number,
        }
    };
}

macro_rules! near {
    ($op:ident, $rs1:expr, $rs2:expr) => {
        Spelling::Near {
            op: BaseOp::$op,
            rs1: $rs1,
            rs2: $rs2,
        }
    };
}

macro_rules! far {
    ($op:ident, $through:expr) => {
        Spelling::Far {
            op: BaseOp::$op,
            through: $through,
        }
    };
}

/// The words of each mnemonic, in the order of the mnemonics.
static SPELLINGS: [Spelling; 86] = [
    // add
    one!(Add, Rd, Rs, Rt, NONE),
    // sub
    one!(Sub, Rd, Rs, Rt, NONE),
    // and
    one!(And, Rd, Rs, Rt, NONE),
    // or
    one!(Or, Rd, Rs, Rt, NONE),
    // xor
    one!(Xor, Rd, Rs, Rt, NONE),
    // sll
    one!(Sll, Rd, Rs, Rt, NONE),
    // srl
    one!(Srl, Rd, Rs, Rt, NONE),
    // sra
    one!(Sra, Rd, Rs, Rt, NONE),
    // slt
    one!(Slt, Rd, Rs, Rt, NONE),
    // sltu
    one!(Sltu, Rd, Rs, Rt, NONE),
    // addw
    one!(Addw, Rd, Rs, Rt, NONE),
    // subw
    one!(Subw, Rd, Rs, Rt, NONE),
    // sllw
    one!(Sllw, Rd, Rs, Rt, NONE),
    // srlw
    one!(Srlw, Rd, Rs, Rt, NONE),
    // sraw
    one!(Sraw, Rd, Rs, Rt, NONE),
    // mul
    one!(Mul, Rd, Rs, Rt, NONE),
    // mulh
    one!(Mulh, Rd, Rs, Rt, NONE),
    // mulhsu
    one!(Mulhsu, Rd, Rs, Rt, NONE),
    // mulhu
    one!(Mulhu, Rd, Rs, Rt, NONE),
    // div
    one!(Div, Rd, Rs, Rt, NONE),
    // divu
    one!(Divu, Rd, Rs, Rt, NONE),
    // rem
    one!(Rem, Rd, Rs, Rt, NONE),
    // remu
    one!(Remu, Rd, Rs, Rt, NONE),
    // mulw
    one!(Mulw, Rd, Rs, Rt, NONE),
    // divw
    one!(Divw, Rd, Rs, Rt, NONE),
    // divuw
    one!(Divuw, Rd, Rs, Rt, NONE),
    // remw
    one!(Remw, Rd, Rs, Rt, NONE),
    // remuw
    one!(Remuw, Rd, Rs, Rt, NONE),
    // addi
    one!(Addi, Rd, Rs, Zero, Given),
    // andi
    one!(Andi, Rd, Rs, Zero, Given),
    // ori
    one!(Ori, Rd, Rs, Zero, Given),
    // xori
    one!(Xori, Rd, Rs, Zero, Given),
    // slti
    one!(Slti, Rd, Rs, Zero, Given),
    // sltiu
    one!(Sltiu, Rd, Rs, Zero, Given),
    // addiw
    one!(Addiw, Rd, Rs, Zero, Given),
    // slli
    one!(Slli, Rd, Rs, Zero, Given),
    // srli
    one!(Srli, Rd, Rs, Zero, Given),
    // srai
    one!(Srai, Rd, Rs, Zero, Given),
    // slliw
    one!(Slliw, Rd, Rs, Zero, Given),
    // srliw
    one!(Srliw, Rd, Rs, Zero, Given),
    // sraiw
    one!(Sraiw, Rd, Rs, Zero, Given),
    // lui
    one!(Lui, Rd, Zero, Zero, Given),
    // lb
    one!(Lb, Rd, Rs, Zero, Given),
    // lbu
    one!(Lbu, Rd, Rs, Zero, Given),
    // lh
    one!(Lh, Rd, Rs, Zero, Given),
    // lhu
    one!(Lhu, Rd, Rs, Zero, Given),
    // lw
    one!(Lw, Rd, Rs, Zero, Given),
    // lwu
    one!(Lwu, Rd, Rs, Zero, Given),
    // ld
    one!(Ld, Rd, Rs, Zero, Given),
    // sb
    one!(Sb, Zero, Rs, Rt, Given),
    // sh
    one!(Sh, Zero, Rs, Rt, Given),
    // sw
    one!(Sw, Zero, Rs, Rt, Given),
    // sd
    one!(Sd, Zero, Rs, Rt, Given),
    // beq
    near!(Beq, Rs, Rt),
    // bne
    near!(Bne, Rs, Rt),
    // blt
    near!(Blt, Rs, Rt),
    // bge
    near!(Bge, Rs, Rt),
    // bltu
    near!(Bltu, Rs, Rt),
    // bgeu
    near!(Bgeu, Rs, Rt),
    // bgt
    near!(Blt, Rt, Rs),
    // ble
    near!(Bge, Rt, Rs),
    // bgtu
    near!(Bltu, Rt, Rs),
    // bleu
    near!(Bgeu, Rt, Rs),
    // beqz
    near!(Beq, Rs, Zero),
    // bnez
    near!(Bne, Rs, Zero),
    // blez
    near!(Bge, Zero, Rs),
    // bgez
    near!(Bge, Rs, Zero),
    // bltz
    near!(Blt, Rs, Zero),
    // bgtz
    near!(Blt, Zero, Rs),
    // li
    Long,
    // la
    far!(Addi, Rd),
    // mv
    one!(Addi, Rd, Rs, Zero, NONE),
    // not
    one!(Xori, Rd, Rs, Zero, MINUS_ONE),
    // neg
    one!(Sub, Rd, Zero, Rs, NONE),
    // negw
    one!(Subw, Rd, Zero, Rs, NONE),
    // sext.w
    one!(Addiw, Rd, Rs, Zero, NONE),
    // seqz
    one!(Sltiu, Rd, Rs, Zero, ONE),
    // snez
    one!(Sltu, Rd, Zero, Rs, NONE),
    // sltz
    one!(Slt, Rd, Rs, Zero, NONE),
    // sgtz
    one!(Slt, Rd, Zero, Rs, NONE),
    // j
    Leap,
    // call
    far!(Jalr, Ra),
    // jalr
    one!(Jalr, Ra, Rs, Zero, NONE),
    // jr
    one!(Jalr, Zero, Rs, Zero, NONE),
    // ret
    one!(Jalr, Zero, Ra, Zero, NONE),
    // nop
    one!(Addi, Zero, Zero, Zero, NONE),
];

/// Which words a line of a mnemonic has. What has one word does what its word does, and a branch is
/// not taken where its opposite is. The words of `li`, `la` and `call` do what their lines do.
pub fn spelling_of(mnemonic: Mnemonic) -> Spelling
    ensures value { result ≡ spec.spelling_of mnemonic }
    ensures does { OneWordDoes }
    ensures opposite { OppositeDoes }
    ensures sequences { SequencesDo }
{
    SPELLINGS[mnemonic as usize]
}
