//! The word of a base instruction, and the base instruction of a word.
ghost use Rattle.std.specs.Prelude.{◌≡◌, ◌+◌, ◌*◌, ◌^◌, ◌<◌, ◌≤◌};
ghost use Rattle.rv_text.specs.Text.{Finds};
ghost use Rattle.rv_word.specs.Table.{codes_of};
ghost use Rattle.rv_word.specs.Word as spec;
ghost use Rattle.rv_word.specs.Word.{IsWordOf};

use crate::base::{Base, BaseOp, Codes, Format, OPS};

/// So many bits of a number, from one place on, moved to another place.
fn moved(from: u32, width: u32, to: u32, number: u64) -> u64
    requires from_fits { from < 64 }
    requires whole_fits { width + to ≤ 32 }
    ensures { result ≡ spec.moved from width to number }
{
    ((number >> from) & ((1 << width) - 1)) << to
}

/// The bits of a number in the word of a format.
fn number_bits(format: Format, number: u64) -> u64
    ensures { result ≡ spec.number_bits format number }
{
    match format {
        Format::Register => 0,
        Format::Immediate => moved(0, 12, 20, number),
        Format::Count6 => moved(0, 6, 20, number),
        Format::Count5 => moved(0, 5, 20, number),
        Format::Store => moved(0, 5, 7, number) + moved(5, 7, 25, number),
        Format::Branch => {
            moved(11, 1, 7, number)
                + moved(1, 4, 8, number)
                + moved(5, 6, 25, number)
                + moved(12, 1, 31, number)
        }
        Format::Upper => moved(0, 20, 12, number),
        Format::Jump => {
            moved(12, 8, 12, number)
                + moved(11, 1, 20, number)
                + moved(1, 10, 21, number)
                + moved(20, 1, 31, number)
        }
    }
}

/// The bits of the registers in the word of a format.
fn register_bits(format: Format, base: Base) -> u64
    ensures { result ≡ spec.register_bits format base }
{
    let mut bits = 0;
    if format.has_rd() {
        bits += moved(0, 5, 7, u64::from(base.rd));
    }
    if format.has_rs1() {
        bits += moved(0, 5, 15, u64::from(base.rs1));
    }
    if format.has_rs2() {
        bits += moved(0, 5, 20, u64::from(base.rs2));
    }
    bits
}

/// The bits of the codes behind the opcode in the word of a format.
fn funct_bits(codes: Codes) -> u64
    ensures { result ≡ spec.funct_bits codes.format codes }
{
    let funct3 = moved(0, 3, 12, u64::from(codes.funct3));
    match codes.format {
        Format::Register | Format::Count5 => funct3 + moved(0, 7, 25, u64::from(codes.funct7)),
        Format::Count6 => funct3 + moved(1, 6, 26, u64::from(codes.funct7)),
        Format::Immediate | Format::Store | Format::Branch => funct3,
        Format::Upper | Format::Jump => 0,
    }
}

/// The word of a base instruction. Of each part as many bits count as the format has for it.
#[tactic(auto, using(crate::proofs::Fields::word_fits))]
pub fn encode(base: Base) -> u32
    ensures { result ≡ spec.encode base }
{
    let codes = base.op.codes();
    let word = moved(0, 7, 0, u64::from(codes.opcode))
        + register_bits(codes.format, base)
        + funct_bits(codes)
        + number_bits(codes.format, base.imm.cast_unsigned());
    word as u32
}

/// A number that is read as two's complement, where there are twice `half` numbers.
pub(crate) fn signed_from(half: u64, number: u64) -> i64
    requires half_fits { half < 2 ^ 52 }
    requires number_fits { number < 2 * half }
    ensures { result ≡ spec.signed_from half number }
{
    if number < half {
        number.cast_signed()
    } else {
        number.cast_signed() - (2 * half).cast_signed()
    }
}

/// The number of a word in a format.
fn number_in(format: Format, word: u64) -> i64
    ensures { result ≡ spec.number_in format word }
{
    match format {
        Format::Register => 0,
        Format::Immediate => signed_from(1 << 11, moved(20, 12, 0, word)),
        Format::Count6 => moved(20, 6, 0, word).cast_signed(),
        Format::Count5 => moved(20, 5, 0, word).cast_signed(),
        Format::Store => signed_from(1 << 11, moved(7, 5, 0, word) + moved(25, 7, 5, word)),
        Format::Branch => signed_from(
            1 << 12,
            moved(7, 1, 11, word)
                + moved(8, 4, 1, word)
                + moved(25, 6, 5, word)
                + moved(31, 1, 12, word),
        ),
        Format::Upper => moved(12, 20, 0, word).cast_signed(),
        Format::Jump => signed_from(
            1 << 20,
            moved(12, 8, 12, word)
                + moved(20, 1, 11, word)
                + moved(21, 10, 1, word)
                + moved(31, 1, 20, word),
        ),
    }
}

/// The register at a place of a word, where the format has one there.
fn register_in(has: bool, place: u32, word: u64) -> u8
    requires { place ≤ 20 }
    ensures { result ≡ spec.part has (spec.moved place 5 0 word) }
{
    if has {
        moved(place, 5, 0, word) as u8
    } else {
        0
    }
}

/// The parts of an instruction in a word.
fn base_in(op: BaseOp, word: u64) -> Base
    ensures { result ≡ spec.base_in op (codes_of op).format word }
{
    let format = op.codes().format;
    Base {
        op,
        rd: register_in(format.has_rd(), 7, word),
        rs1: register_in(format.has_rs1(), 15, word),
        rs2: register_in(format.has_rs2(), 20, word),
        imm: number_in(format, word),
    }
}

/// Whether the codes behind the opcode are those of a word.
fn has_functs(codes: Codes, word: u64) -> bool
    ensures { result ≡ spec.has_functs codes.format codes word }
{
    let has_funct3 = moved(12, 3, 0, word) == u64::from(codes.funct3);
    match codes.format {
        Format::Register | Format::Count5 => {
            has_funct3 && moved(25, 7, 0, word) == u64::from(codes.funct7)
        }
        Format::Count6 => has_funct3 && moved(26, 6, 1, word) == u64::from(codes.funct7),
        Format::Immediate | Format::Store | Format::Branch => has_funct3,
        Format::Upper | Format::Jump => true,
    }
}

/// Whether the codes of an instruction are those of a word.
fn has_codes(codes: Codes, word: u64) -> bool
    ensures { result ≡ spec.has_codes codes word }
{
    moved(0, 7, 0, word) == u64::from(codes.opcode) && has_functs(codes, word)
}

/// The first of the instructions whose codes a word has.
fn find_op(ops: &[BaseOp], word: u64) -> Option<BaseOp>
    ensures { result ≡ spec.find_op word ops.now }
{
    for op in ops {
        if has_codes(op.codes(), word) {
            return Some(*op);
        }
    }
    None
}

/// The base instruction of a word, which is given in more bits than it has.
fn decoded(word: u64) -> Option<Base>
    ensures { result ≡ spec.decode word }
{
    let op = find_op(&OPS, word)?;
    Some(base_in(op, word))
}

/// The base instruction of a word, or `None` where it is the word of none.
pub fn decode(word: u32) -> Option<Base>
    ensures value { result ≡ spec.decode word }
    ensures inverse { Finds (IsWordOf word) result }
{
    decoded(u64::from(word))
}

#[cfg(test)]
mod tests {
    use super::*;

    fn base(op: BaseOp, rd: u8, rs1: u8, rs2: u8, imm: i64) -> Base {
        Base {
            op,
            rd,
            rs1,
            rs2,
            imm,
        }
    }

    #[test]
    fn words_are_those_of_the_manual(rt: HostRuntime) {
        assert_eq!(rt; encode(base(BaseOp::Sub, 10, 11, 12, 0)), 0x40c5_8533);
        assert_eq!(rt; encode(base(BaseOp::Sraiw, 5, 6, 0, 31)), 0x41f3_529b);
        assert_eq!(rt; encode(base(BaseOp::Srai, 5, 6, 0, 63)), 0x43f3_5293);
        assert_eq!(rt; encode(base(BaseOp::Sd, 0, 2, 8, -8)), 0xfe81_3c23);
        assert_eq!(rt; encode(base(BaseOp::Bne, 0, 10, 11, -4)), 0xfeb5_1ee3);
        assert_eq!(rt; encode(base(BaseOp::Lui, 6, 0, 0, 0xf_ffff)), 0xffff_f337);
        assert_eq!(rt; encode(base(BaseOp::Jal, 1, 0, 0, 2048)), 0x0010_00ef);
    }

    #[test]
    fn words_are_decoded(rt: HostRuntime) {
        let Some(branch) = decode(0xfeb5_1ee3) else {
            assert!(rt; false);
            return;
        };
        assert!(rt; matches!(branch.op, BaseOp::Bne));
        assert_eq!(rt;
            (branch.rd, branch.rs1, branch.rs2, branch.imm),
            (0, 10, 11, -4)
        );
        assert!(rt; decode(0x0000_0073).is_none());
    }
}
