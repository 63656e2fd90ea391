//! Output templates.
ghost use Rattle.std.specs.Prelude.{◌≡◌, IfOk};
ghost use Rattle.std.specs.List.{list_all, list_any};
ghost use Rattle.text_words.specs.Blanks.{is_space};
ghost use Rattle.md_text.specs.Template as spec;

use crate::line::line_of;
use crate::lists::parts_of;
use plain_data::{Items, Memory};
use rtx_tree::Name;
use std::alloc::Global;
use text_words::{behind_spaces, is_space};

/// How an operand is printed.
#[derive(Clone, Copy, Debug)]
pub enum Print {
    /// `%0`: as what it is.
    Plain,
    /// `%l0`: as a label.
    Label,
    /// `%c0`: as a constant.
    Constant,
    /// `%n0`: as the negative of a constant.
    Negative,
    /// `%z0`: as `zero` where it is the constant 0.
    OrZero,
    /// `%i0`: `i` where it is no register.
    Immediate,
    /// `%C0`: as the code of a comparison.
    Comparison,
    /// `%N0`: as the code of the reverse of a comparison.
    Reversed,
}

/// A piece of a line.
#[derive(Clone, Copy)]
pub enum Piece {
    /// A byte as it is.
    Byte(u8),
    /// The operand of a number.
    Operand { print: Print, number: u32 },
    /// `%=`: the number of the instruction.
    Uid,
}

/// The pieces of one text, in order.
pub type Line = Items<Piece>;

/// What a form is printed as.
#[derive(Drop)]
pub enum Template {
    /// `#`: it isn't printed, but always split.
    Split,
    /// One text for all alternatives.
    One(Line),
    /// A text for each alternative, in order.
    Each(Items<Line>),
}

/// What the output part of a form is.
#[derive(Drop)]
pub enum Reading {
    Template(Template),
    /// C code, or C code for one of the alternatives.
    Code,
    /// A text with a sequence that is none of [`Piece`].
    Outside,
}

fn all_space(text: &[u8]) -> bool
    ensures { result ≡ list_all is_space text.now }
{
    for byte in text {
        if !is_space(*byte) {
            return false;
        }
    }
    true
}

/// Without the line of the `@` itself, if nothing more stands there.
fn behind_at(parts: &[Name]) -> &[Name]
    ensures { result.now ≡ spec.behind_at parts.entry.now }
{
    match parts {
        [first, more @ ..] if all_space(first.bytes()) => more,
        _ => parts,
    }
}

fn is_code(text: &[u8]) -> bool
    ensures { result ≡ spec.is_code text.now }
{
    matches!(text, [b'*', ..])
}

fn is_code_line(text: &[u8]) -> bool
    ensures { result ≡ spec.is_code_line text.now }
{
    is_code(behind_spaces(text))
}

fn any_code(texts: &[Name]) -> bool
    ensures { result ≡ list_any spec.is_code_line texts.now }
{
    for text in texts {
        if is_code_line(text.bytes()) {
            return true;
        }
    }
    false
}

fn spaced_line_of(alloc: Global, text: &[u8]) -> Result<Option<Line>, Memory>
    ensures { IfOk result (λ line. line ≡ spec.spaced_line_of text.now) }
{
    line_of(alloc, behind_spaces(text))
}

/// The template with a text for each alternative.
#[tactic(auto, using(crate::proofs::Each::with_nothing, crate::proofs::Each::each_next, crate::proofs::Each::each_stops, crate::proofs::Each::each_ends))]
fn each_line(alloc: Global, texts: &[Name]) -> Result<Reading, Memory>
    ensures { IfOk result (λ reading. reading ≡ spec.each_line texts.now) }
{
    if any_code(texts) {
        return Ok(Reading::Code);
    }
    let mut lines = Items::new(alloc);
    for text in texts {
        match spaced_line_of(alloc, text.bytes())? {
            Some(line) => lines.push(line)?,
            None => return Ok(Reading::Outside),
        }
    }
    Ok(Reading::Template(Template::Each(lines)))
}

fn is_split(text: &[u8]) -> bool
    ensures { result ≡ spec.is_split text.now }
{
    matches!(text, [b'#'])
}

fn is_several(text: &[u8]) -> bool
    ensures { result ≡ spec.is_several text.now }
{
    matches!(text, [b'@', ..])
}

fn behind_first(text: &[u8]) -> &[u8]
    ensures { result.now ≡ spec.behind_first text.entry.now }
{
    match text {
        [] => &[],
        [_, rest @ ..] => rest,
    }
}

/// The template of these lines behind `@`.
fn several(alloc: Global, text: &[u8]) -> Result<Reading, Memory>
    ensures { IfOk result (λ reading. reading ≡ spec.each_line (spec.lines text.now)) }
{
    let parts = parts_of(alloc, text, b'\n')?;
    each_line(alloc, behind_at(parts.as_slice()))
}

fn one(alloc: Global, text: &[u8]) -> Result<Reading, Memory>
    ensures { IfOk result (λ reading. reading ≡ spec.one (spec.line_of text.now)) }
{
    match line_of(alloc, text)? {
        Some(line) => Ok(Reading::Template(Template::One(line))),
        None => Ok(Reading::Outside),
    }
}

/// What the output part of a form is, by the text between its quotes, which has its backslashes
/// still.
pub fn template_of(alloc: Global, text: &[u8]) -> Result<Reading, Memory>
    ensures { IfOk result (λ reading. reading ≡ spec.template_of text.now) }
{
    if is_code(text) {
        Ok(Reading::Code)
    } else if is_split(text) {
        Ok(Reading::Template(Template::Split))
    } else if is_several(text) {
        several(alloc, behind_first(text))
    } else {
        one(alloc, text)
    }
}
