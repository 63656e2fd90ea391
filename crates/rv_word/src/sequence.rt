//! The words of lines.
ghost use Rattle.std.specs.Prelude.{◌≡◌, true, pos, negsuc, ◌-ℤ◌, ◌≤ℤ◌, ◌++◌, ◌∷◌, [], ◌%◌, ◌^◌, ◌<◌, ◌≤◌, map, OnOk, IfOk};
ghost use Rattle.std.specs.Int.{cast_unsigned, w64};
ghost use Rattle.rv_word.specs.Sequence as spec;
ghost use Rattle.rv_word.specs.Sequence.{SequencesDo};
ghost use Rattle.rv_word.specs.Spelling.{register_at, number_at, opposite as opposite_of, base_of};
ghost use Rattle.rv_word.specs.Word.{encode as word_of};

use crate::base::{Base, BaseOp};
use crate::spelling::{Number, Place, Spelling};
use crate::word::{encode, signed_from};
use plain_data::{Items, Memory};
use rv_text::Line;
use std::alloc::Global;

/// A number without its low 12 bits, to which half of what these can be is added.
fn upper(number: u64) -> u64
    ensures value { result ≡ spec.upper number }
    ensures bound { result ≤ 2 ^ 52 }
{
    number / 4096 + number / 2048 % 2
}

/// What has to be added to 4096 times the upper part.
fn lower(number: u64) -> i64
    ensures { result ≡ spec.lower number }
{
    signed_from(2048, number % 4096)
}

/// Whether a number has 12 signed bits.
#[tactic(auto, using(crate::proofs::Ranges::within12))]
fn fits12(number: i64) -> bool
    ensures { result ≡ spec.fits (2 ^ 11) number }
{
    -2048 <= number && number <= 2047
}

/// Whether a number has 32 signed bits.
#[tactic(auto, using(crate::proofs::Ranges::within32))]
fn fits32(number: i64) -> bool
    ensures { result ≡ spec.fits (2 ^ 31) number }
{
    -2_147_483_648 <= number && number <= 2_147_483_647
}

/// A number without its lower part, shifted to the right by 12.
fn shifted(number: i64) -> i64
    ensures { result ≡ spec.shifted number }
{
    signed_from(1 << 51, upper(number.cast_unsigned()) % (1 << 52))
}

fn base(op: BaseOp, rd: u8, rs1: u8, rs2: u8, imm: i64) -> Base
    ensures { result ≡ base_of op rd rs1 rs2 imm }
{
    Base {
        op,
        rd,
        rs1,
        rs2,
        imm,
    }
}

/// Puts the word of an instruction behind others.
fn push(base: Base, words: &mut Items<u32>) -> Result<(), Memory>
    ensures { OnOk result (words.new ≡ words.old ++ word_of base ∷ []) }
{
    words.push(encode(base))
}

/// Puts an instruction there that adds the lower part of a number, where that isn't 0.
fn push_added(op: BaseOp, rd: u8, number: u64, words: &mut Items<u32>) -> Result<(), Memory>
    ensures { OnOk result (words.new ≡ words.old ++ map word_of (spec.added op rd number)) }
{
    if number % 4096 == 0 {
        return Ok(());
    }
    push(base(op, rd, rd, 0, lower(number)), words)
}

/// Puts the words there that put a number of 32 signed bits into a register.
fn push_near(rd: u8, number: i64, words: &mut Items<u32>) -> Result<(), Memory>
    ensures { OnOk result (words.new ≡ words.old ++ map word_of (spec.near_words rd number)) }
{
    if fits12(number) {
        return push(base(BaseOp::Addi, rd, 0, 0, number), words);
    }
    let bits = number.cast_unsigned();
    let high = (upper(bits) % (1 << 20)).cast_signed();
    push(base(BaseOp::Lui, rd, 0, 0, high), words)?;
    push_added(BaseOp::Addiw, rd, bits, words)
}

/// Puts the words there that shift a register and add the lower part of a number.
fn push_shift(rd: u8, number: i64, words: &mut Items<u32>) -> Result<(), Memory>
    ensures { OnOk result (words.new ≡ words.old ++
        map word_of (base_of BaseOp.Slli rd rd 0 (pos 12) ∷ spec.added BaseOp.Addi rd (cast_unsigned w64 number))) }
{
    push(base(BaseOp::Slli, rd, rd, 0, 12), words)?;
    push_added(BaseOp::Addi, rd, number.cast_unsigned(), words)
}

/// Puts the words there that put a number into a register, after so many cuts by 12 bits at most.
fn push_long(cuts: u32, rd: u8, number: i64, words: &mut Items<u32>) -> Result<(), Memory>
    ensures { OnOk result (words.new ≡ words.old ++ map word_of (spec.li_words cuts rd number)) }
{
    if cuts == 0 || fits32(number) {
        return push_near(rd, number, words);
    }
    push_long(cuts - 1, rd, shifted(number), words)?;
    push_shift(rd, number, words)
}

/// The branch that is taken where another one isn't.
fn opposite(op: BaseOp) -> BaseOp
    ensures { result ≡ opposite_of op }
{
    match op {
        BaseOp::Beq => BaseOp::Bne,
        BaseOp::Bne => BaseOp::Beq,
        BaseOp::Blt => BaseOp::Bge,
        BaseOp::Bge => BaseOp::Blt,
        BaseOp::Bltu => BaseOp::Bgeu,
        BaseOp::Bgeu => BaseOp::Bltu,
        _ => op,
    }
}

/// A register of a line's word.
fn register(place: Place, line: &Line) -> u8
    ensures { result ≡ register_at place line.now }
{
    match place {
        Place::Rd => line.rd,
        Place::Rs => line.rs,
        Place::Rt => line.rt,
        Place::Zero => 0,
        Place::Ra => 1,
    }
}

fn number(number: Number, line: &Line) -> i64
    ensures { result ≡ number_at number line.now }
{
    match number {
        Number::Given => line.imm,
        Number::Fixed { number } => number,
    }
}

/// The opposite of a branch, which leads behind the next word.
fn over_next(op: BaseOp, rs1: u8, rs2: u8) -> Base
    ensures { result ≡ base_of (opposite_of op) 0 rs1 rs2 (pos 8) }
{
    Base {
        op: opposite(op),
        rd: 0,
        rs1,
        rs2,
        imm: 8,
    }
}

/// A jump to what stands so many bytes further, seen from the word before it.
fn jump_from_before(further: i64) -> Base
    requires { negsuc 1099511627775 ≤ℤ further }
    ensures { result ≡ base_of BaseOp.Jal 0 0 0 (further -ℤ pos 4) }
{
    Base {
        op: BaseOp::Jal,
        rd: 0,
        rs1: 0,
        rs2: 0,
        imm: further - 4,
    }
}

/// Puts the opposite of a branch there, and a jump.
fn push_long_branch(
    op: BaseOp,
    rs1: u8,
    rs2: u8,
    further: i64,
    words: &mut Items<u32>,
) -> Result<(), Memory>
    requires { negsuc 1099511627775 ≤ℤ further }
    ensures { OnOk result (words.new ≡ words.old ++
        map word_of (spec.near_branch true op rs1 rs2 further)) }
{
    push(over_next(op, rs1, rs2), words)?;
    push(jump_from_before(further), words)
}

/// Puts the words of a branch there: one, or the opposite branch over a jump.
fn push_branch(
    long: bool,
    op: BaseOp,
    rs1: u8,
    rs2: u8,
    further: i64,
    words: &mut Items<u32>,
) -> Result<(), Memory>
    requires { negsuc 1099511627775 ≤ℤ further }
    ensures { OnOk result (words.new ≡ words.old ++
        map word_of (spec.near_branch long op rs1 rs2 further)) }
{
    if long {
        return push_long_branch(op, rs1, rs2, further, words);
    }
    push(base(op, 0, rs1, rs2, further), words)
}

/// Puts the two words there that go by an address through a register.
fn push_far(op: BaseOp, reg: u8, address: u64, words: &mut Items<u32>) -> Result<(), Memory>
    ensures { OnOk result (words.new ≡ words.old ++ map word_of (spec.far_words op reg address)) }
{
    push(
        base(BaseOp::Lui, reg, 0, 0, upper(address).cast_signed()),
        words,
    )?;
    push(base(op, reg, reg, 0, lower(address)), words)
}

/// Puts the words of a line behind others: whether it is a branch that is long, how many bytes
/// further its label stands, and the address of its symbol. The words of `li`, `la` and `call` do
/// what their lines do.
pub fn push_words(
    spelling: Spelling,
    line: &Line,
    long: bool,
    further: i64,
    address: u64,
    words: &mut Items<u32>,
) -> Result<(), Memory>
    requires { negsuc 1099511627775 ≤ℤ further }
    ensures words { OnOk result (words.new ≡ words.old ++
        map word_of (spec.line_words spelling line.now long further address)) }
    ensures sequences { SequencesDo }
{
    match spelling {
        Spelling::One {
            op,
            rd,
            rs1,
            rs2,
            number: imm,
        } => push(
            base(
                op,
                register(rd, line),
                register(rs1, line),
                register(rs2, line),
                number(imm, line),
            ),
            words,
        ),
        Spelling::Near { op, rs1, rs2 } => push_branch(
            long,
            op,
            register(rs1, line),
            register(rs2, line),
            further,
            words,
        ),
        Spelling::Leap => push(base(BaseOp::Jal, 0, 0, 0, further), words),
        Spelling::Long => push_long(3, line.rd, line.imm, words),
        Spelling::Far { op, through } => push_far(op, register(through, line), address, words),
    }
}

/// How many words a line has.
pub fn word_count(
    alloc: Global,
    spelling: Spelling,
    line: &Line,
    long: bool,
) -> Result<usize, Memory>
    ensures { IfOk result (λ count. count ≡ spec.word_count spelling line.now long) }
{
    let mut words = Items::new(alloc);
    push_words(spelling, line, long, 0, 0, &mut words)?;
    Ok(words.len())
}
