//! Templates that are written out as their texts.
ghost use Rattle.std.specs.Prelude.{◌≡◌, ◌↔◌, IfOk, IsTrue};
ghost use Rattle.plain_held.specs.Rows as spec;

use md_text::{Line, Piece, Print, Reading, Template, template_of};
use plain_data::{Items, Memory};
use std::alloc::Global;

fn same_print(a: Print, b: Print) -> bool
    ensures { IsTrue result ↔ (a ≡ b) }
{
    a == b
}

fn is_byte(piece: Piece, byte: u8) -> bool
    ensures { IsTrue result ↔ (piece ≡ Piece.Byte byte) }
{
    match piece {
        Piece::Byte(own) => own == byte,
        _ => false,
    }
}

fn is_operand(piece: Piece, print: Print, number: u32) -> bool
    ensures { IsTrue result ↔ (piece ≡ Piece.Operand print number) }
{
    match piece {
        Piece::Operand {
            print: own,
            number: at,
        } => same_print(own, print) && at == number,
        _ => false,
    }
}

/// Whether pieces are the same.
fn same_piece(a: Piece, b: Piece) -> bool
    ensures { IsTrue result ↔ (a ≡ b) }
{
    match b {
        Piece::Byte(byte) => is_byte(a, byte),
        Piece::Operand { print, number } => is_operand(a, print, number),
        Piece::Uid => matches!(a, Piece::Uid),
    }
}

#[tactic(auto, using(crate::proofs::Same::same_lists))]
fn same_line(xs: &[Piece], ys: &[Piece]) -> bool
    ensures { IsTrue result ↔ (xs.now ≡ ys.now) }
{
    if xs.len() != ys.len() {
        return false;
    }
    for i in 0..xs.len() {
        if !same_piece(xs[i], ys[i]) {
            return false;
        }
    }
    true
}

#[tactic(auto, using(crate::proofs::Same::same_lists))]
fn same_lines(xs: &[Line], ys: &[Line]) -> bool
    ensures { IsTrue result ↔ (xs.now ≡ ys.now) }
{
    if xs.len() != ys.len() {
        return false;
    }
    for i in 0..xs.len() {
        if !same_line(xs[i].as_slice(), ys[i].as_slice()) {
            return false;
        }
    }
    true
}

fn is_one(template: &Template, line: &Line) -> bool
    ensures { IsTrue result ↔ (template.now ≡ Template.One line.now) }
{
    match template {
        Template::One(own) => same_line(own.as_slice(), line.as_slice()),
        _ => false,
    }
}

fn are_each(template: &Template, lines: &Items<Line>) -> bool
    ensures { IsTrue result ↔ (template.now ≡ Template.Each lines.now) }
{
    match template {
        Template::Each(own) => same_lines(own.as_slice(), lines.as_slice()),
        _ => false,
    }
}

/// Whether templates are the same.
fn same_template(a: &Template, b: &Template) -> bool
    ensures { IsTrue result ↔ (a.now ≡ b.now) }
{
    match b {
        Template::Split => matches!(a, Template::Split),
        Template::One(line) => is_one(a, line),
        Template::Each(lines) => are_each(a, lines),
    }
}

/// The template of a text. A text that has none gives the empty one.
fn template_in(alloc: Global, text: &str) -> Result<Template, Memory>
    ensures { IfOk result (λ template. template ≡ spec.template_in text.now) }
{
    match template_of(alloc, text.as_bytes())? {
        Reading::Template(template) => Ok(template),
        _ => Ok(Template::One(Items::new(alloc))),
    }
}

/// Whether a template is that of a text.
pub fn is_template(alloc: Global, template: &Template, text: &str) -> Result<bool, Memory>
    ensures { IfOk result (λ same. IsTrue same ↔ (template.now ≡ spec.template_in text.now)) }
{
    let wanted = template_in(alloc, text)?;
    Ok(same_template(template, &wanted))
}
