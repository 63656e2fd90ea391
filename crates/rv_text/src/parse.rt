//! Text to lines.
ghost use Rattle.std.specs.Prelude.{◌≡◌, ◌&&◌, ℕ, ℤ, List, true, Some, None, IsSome, IfSome, if◌then◌else◌, bytes_eq, IfOk, option_map};
ghost use Rattle.std.specs.Fmt.{signed_decimal};
ghost use Rattle.text_words.specs.Words.{fits_i64};
ghost use Rattle.rv_text.specs.Lines as lines;
ghost use Rattle.rv_text.specs.Lines.{parts_view};
ghost use Rattle.rv_text.specs.Text as spec;
ghost use Rattle.rv_text.specs.Text.{Finds, Sets, IsListed, IsListedFrom, IsRestOf, IsTextOf};
ghost use Rattle.rv_text.specs.Table.{HasEvery, row_view};
ghost use Rattle.rv_text.specs.machine.Cuts as cuts;

use crate::line::{Line, LineParts, is_within};
use crate::operand::Operand;
use crate::table::{Row, row_named};
use itoa::Buffer;
use plain_data::Memory;
use rtx_tree::reg_number;
use std::alloc::Global;
use text_words::{behind_spaces, is_space, is_symbol};

fn is_word_byte(byte: u8) -> bool
    ensures { result ≡ cuts.is_word_byte byte }
{
    !is_space(byte) && byte != b','
}

/// What stands before the first blank or comma, and the rest.
fn split_word(bytes: &[u8]) -> (&[u8], &[u8])
    ensures word { result.0.now ≡ cuts.word bytes.entry.now }
    ensures rest { result.1.now ≡ cuts.behind_word bytes.entry.now }
{
    for (at, byte) in bytes.iter().enumerate() {
        if !is_word_byte(*byte) {
            return bytes.split_at(at);
        }
    }
    (bytes, &[])
}

/// What stands behind a comma and the blanks round it, or `None` where there is no comma.
fn behind_comma(bytes: &[u8]) -> Option<&[u8]>
    ensures { option_map (λ rest. rest.now) result ≡ cuts.behind_comma bytes.entry.now }
{
    match behind_spaces(bytes) {
        [b',', rest @ ..] => Some(behind_spaces(rest)),
        _ => None,
    }
}

/// What stands before and behind the first of a byte.
fn split_at_byte(bytes: &[u8], mark: u8) -> Option<(&[u8], &[u8])>
    ensures { option_map (λ parts. (parts.0.now, parts.1.now)) result ≡
        cuts.parts_at mark bytes.entry.now }
{
    for (at, byte) in bytes.iter().enumerate() {
        if *byte == mark {
            return Some((&bytes[..at], &bytes[at + 1..]));
        }
    }
    None
}

/// The number that a text is of, if it is one's.
fn number_of(text: &[u8]) -> Option<i64>
    ensures { (z : ℤ) → fits_i64 z ≡ true → signed_decimal z ≡ text.now → result ≡ Some z }
{
    let Ok(text) = str::from_utf8(text) else {
        return None;
    };
    text.parse().ok()
}

fn is_decimal(number: i64, text: &[u8]) -> bool
    ensures { result ≡ bytes_eq (signed_decimal number) text.now }
{
    Buffer::new().format(number).as_bytes() == text
}

fn if_written(number: i64, least: i64, most: i64, text: &[u8]) -> Option<i64>
    ensures { result ≡ (if lines.is_within least most number && bytes_eq
        (signed_decimal number) text.now then Some number else None) }
{
    if is_within(number, least, most) && is_decimal(number, text) {
        Some(number)
    } else {
        None
    }
}

fn read_number(text: &[u8], least: i64, most: i64) -> Option<i64>
    ensures { Finds (λ number. lines.number_text least most number ≡ Some text.now) result }
{
    match number_of(text) {
        None => None,
        Some(number) => if_written(number, least, most, text),
    }
}

fn read_register(text: &[u8]) -> Option<u8>
    ensures { Finds (λ reg. lines.register_text reg ≡ Some text.now) result }
{
    reg_number(text)
}

/// The texts of a number and of a register in parentheses behind it.
fn split_place(text: &[u8]) -> Option<(&[u8], &[u8])>
    ensures { option_map (λ parts. (parts.0.now, parts.1.now)) result ≡
        cuts.place_parts text.entry.now }
{
    let (number, rest) = split_at_byte(text, b'(')?;
    let (reg, end) = split_at_byte(rest, b')')?;
    if end.is_empty() {
        Some((number, reg))
    } else {
        None
    }
}

fn pair(number: Option<i64>, reg: Option<u8>) -> Option<(i64, u8)>
    ensures { result ≡ cuts.pair number reg }
{
    match (number, reg) {
        (Some(number), Some(reg)) => Some((number, reg)),
        _ => None,
    }
}

fn read_place(text: &[u8], least: i64, most: i64) -> Option<(i64, u8)>
    ensures { Finds (λ place. lines.place_text (lines.number_text least most place.0)
        (lines.register_text place.1) ≡ Some text.now) result }
{
    match split_place(text) {
        None => None,
        Some((number, reg)) => pair(read_number(number, least, most), read_register(reg)),
    }
}

fn set_rd<'a>(parts: LineParts<'a>, rd: Option<u8>) -> Option<LineParts<'a>>
    ensures { option_map parts_view result ≡
        option_map (λ rd. record (parts_view parts.entry) { rd = rd }) rd }
{
    match rd {
        None => None,
        Some(rd) => Some(LineParts { rd, ..parts }),
    }
}

fn set_rs<'a>(parts: LineParts<'a>, rs: Option<u8>) -> Option<LineParts<'a>>
    ensures { option_map parts_view result ≡
        option_map (λ rs. record (parts_view parts.entry) { rs = rs }) rs }
{
    match rs {
        None => None,
        Some(rs) => Some(LineParts { rs, ..parts }),
    }
}

fn set_rt<'a>(parts: LineParts<'a>, rt: Option<u8>) -> Option<LineParts<'a>>
    ensures { option_map parts_view result ≡
        option_map (λ rt. record (parts_view parts.entry) { rt = rt }) rt }
{
    match rt {
        None => None,
        Some(rt) => Some(LineParts { rt, ..parts }),
    }
}

fn with_imm<'a>(parts: LineParts<'a>, imm: i64) -> LineParts<'a>
    ensures { parts_view result ≡ record (parts_view parts.entry) { imm = imm } }
{
    LineParts { imm, ..parts }
}

fn set_imm<'a>(parts: LineParts<'a>, imm: Option<i64>) -> Option<LineParts<'a>>
    ensures { option_map parts_view result ≡
        option_map (λ imm. record (parts_view parts.entry) { imm = imm }) imm }
{
    match imm {
        None => None,
        Some(imm) => Some(with_imm(parts, imm)),
    }
}

fn set_place<'a>(parts: LineParts<'a>, place: Option<(i64, u8)>) -> Option<LineParts<'a>>
    ensures { option_map parts_view result ≡ option_map (λ place.
        record (parts_view parts.entry) { rs = place.1; imm = place.0 }) place }
{
    match place {
        None => None,
        Some((imm, rs)) => Some(with_imm(LineParts { rs, ..parts }, imm)),
    }
}

fn read_rd<'a>(text: &[u8], parts: LineParts<'a>) -> Option<LineParts<'a>>
    ensures { Finds (Sets Operand.Rd text.now (parts_view parts.entry))
        (option_map parts_view result) }
{
    set_rd(parts, read_register(text))
}

fn read_rs<'a>(text: &[u8], parts: LineParts<'a>) -> Option<LineParts<'a>>
    ensures { Finds (Sets Operand.Rs text.now (parts_view parts.entry))
        (option_map parts_view result) }
{
    set_rs(parts, read_register(text))
}

fn read_rt<'a>(text: &[u8], parts: LineParts<'a>) -> Option<LineParts<'a>>
    ensures { Finds (Sets Operand.Rt text.now (parts_view parts.entry))
        (option_map parts_view result) }
{
    set_rt(parts, read_register(text))
}

fn read_imm<'a>(text: &[u8], least: i64, most: i64, parts: LineParts<'a>) -> Option<LineParts<'a>>
    ensures { Finds (Sets (Operand.Number least most) text.now (parts_view parts.entry))
        (option_map parts_view result) }
{
    set_imm(parts, read_number(text, least, most))
}

fn read_rs_and_imm<'a>(
    text: &[u8],
    least: i64,
    most: i64,
    parts: LineParts<'a>,
) -> Option<LineParts<'a>>
    ensures { Finds (Sets (Operand.Place least most) text.now (parts_view parts.entry))
        (option_map parts_view result) }
{
    set_place(parts, read_place(text, least, most))
}

fn read_target<'a>(text: &'a [u8], parts: LineParts<'a>) -> Option<LineParts<'a>>
    ensures { Finds (Sets Operand.Target text.entry.now (parts_view parts.entry))
        (option_map parts_view result) }
{
    if is_symbol(text) {
        Some(LineParts {
            target: text,
            ..parts
        })
    } else {
        None
    }
}

fn read_ra<'a>(text: &[u8], parts: LineParts<'a>) -> Option<LineParts<'a>>
    ensures { Finds (Sets Operand.Ra text.now (parts_view parts.entry))
        (option_map parts_view result) }
{
    if text == b"ra".as_slice() {
        Some(parts)
    } else {
        None
    }
}

/// Reads one operand.
fn read_operand<'a>(operand: Operand, text: &'a [u8], parts: LineParts<'a>) -> Option<LineParts<'a>>
    ensures { Finds (Sets operand text.entry.now (parts_view parts.entry))
        (option_map parts_view result) }
{
    match operand {
        Operand::Rd => read_rd(text, parts),
        Operand::Rs => read_rs(text, parts),
        Operand::Rt => read_rt(text, parts),
        Operand::Number { least, most } => read_imm(text, least, most, parts),
        Operand::Place { least, most } => read_rs_and_imm(text, least, most, parts),
        Operand::Target => read_target(text, parts),
        Operand::Ra => read_ra(text, parts),
    }
}

/// Reads operands with commas.
fn read_operands_from<'a>(
    operand: Operand,
    others: &[Operand],
    bytes: &'a [u8],
    parts: LineParts<'a>,
) -> Option<LineParts<'a>>
    ensures { Finds (IsListedFrom operand others.now bytes.entry.now (parts_view parts.entry))
        (option_map parts_view result) }
{
    let [next, others @ ..] = others else {
        return read_operand(operand, bytes, parts);
    };
    let (text, rest) = split_word(bytes);
    let Some(parts) = read_operand(operand, text, parts) else {
        return None;
    };
    let Some(rest) = behind_comma(rest) else {
        return None;
    };
    read_operands_from(*next, others, rest, parts)
}

/// Reads all operands.
fn read_operands<'a>(
    operands: &[Operand],
    bytes: &'a [u8],
    parts: LineParts<'a>,
) -> Option<LineParts<'a>>
    ensures { Finds (IsListed operands.now bytes.entry.now (parts_view parts.entry))
        (option_map parts_view result) }
{
    match operands {
        [] if bytes.is_empty() => Some(parts),
        [] => None,
        [operand, others @ ..] => read_operands_from(*operand, others, bytes, parts),
    }
}

/// Reads what stands behind the mnemonic of a row.
fn read_row<'a>(row: Row, name: &'a [u8], rest: &'a [u8]) -> Option<LineParts<'a>>
    ensures { Finds (IsRestOf (row_view row) name.entry.now rest.entry.now)
        (option_map parts_view result) }
{
    let operands = behind_spaces(rest);
    if operands.len() == rest.len() && !row.operands.is_empty() {
        return None;
    }
    read_operands(row.operands, operands, LineParts::bare(name))
}

/// Reads a line.
fn read_parts(bytes: &[u8]) -> Option<LineParts<'_>>
    ensures { Finds (IsTextOf bytes.entry.now) (option_map parts_view result) }
{
    let (name, rest) = split_word(behind_spaces(bytes));
    match row_named(name) {
        None => None,
        Some(row) => read_row(row, name, rest),
    }
}

/// Reads a line: blanks, a mnemonic, blanks, operands with commas, round which blanks may stand.
/// `None` where the bytes are no line.
#[tactic(auto, using(crate::proofs::Apart::text_is_line))]
pub fn parse_line(alloc: Global, bytes: &[u8]) -> Result<Option<Line>, Memory>
    ensures line { IfOk result (Finds (IsTextOf bytes.now)) }
    ensures action { IfOk result (λ found. IfSome found (λ line. IsSome (lines.action_of line))) }
    ensures one { (text : List ℕ) (a b : Line) → IsTextOf text a → IsTextOf text b → a ≡ b }
    ensures every { HasEvery }
{
    match read_parts(bytes) {
        None => Ok(None),
        Some(parts) => Ok(Some(parts.to_line(alloc)?)),
    }
}
