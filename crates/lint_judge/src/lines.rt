//! The lines of a filled template.
ghost use Rattle.std.specs.Prelude.{◌≡◌, IfOk};
ghost use Rattle.std.specs.List.{list_any};
ghost use Rattle.md_output.specs.Filled.{filled, lines_of as texts_in};
ghost use Rattle.lint_judge.specs.Lines as spec;

use md_output::{fill, lines_of};
use md_text::Template;
use plain_data::{Items, Memory};
use rtx_tree::{Name, Operands};
use rv_text::Line;
use std::alloc::Global;

/// The texts of a template's lines, filled with operands.
pub fn texts_of(
    alloc: Global,
    template: &Template,
    alternative: u32,
    operands: &Operands,
    uid: u32,
) -> Result<Items<Name>, Memory>
    ensures { IfOk result (λ texts.
        texts ≡ texts_in (filled template.now alternative 0 uid operands.now)) }
{
    let mut text = Vec::new(alloc);
    fill(template, alternative, operands, 0, uid, &mut text)?;
    lines_of(alloc, text.as_slice())
}

/// Whether the text at a place was no line.
pub fn is_unread(lines: &[Line], place: u32) -> bool
    ensures { result ≡ spec.is_unread lines.now place }
{
    match lines.get(place as usize) {
        Some(line) => line.name.bytes().is_empty(),
        None => false,
    }
}

fn has_quote(text: &[u8]) -> bool
    ensures { result ≡ list_any spec.is_quote text.now }
{
    text.iter().any(|byte| *byte == b'"')
}

/// Whether the text at a place has a double quote.
pub fn is_quoted(texts: &[Name], place: u32) -> bool
    ensures { result ≡ spec.is_quoted texts.now place }
{
    match texts.get(place as usize) {
        Some(text) => has_quote(text.bytes()),
        None => false,
    }
}
