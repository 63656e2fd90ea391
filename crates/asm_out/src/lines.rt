//! The lines that a form gives for an instruction.
ghost use Rattle.std.specs.Prelude.{◌≡◌, ◌++◌, OnOk, IfOk, length, map, option_map};
ghost use Rattle.std.specs.Option.{option_copied};
ghost use Rattle.rv_text.specs.declared.line.CodeItem.TheVariants as item;
ghost use Rattle.asm_out.specs.Filled as spec;
ghost use Rattle.asm_out.specs.Filled.{AreLinesOf};

use crate::piece::Piece;
use md_desc::{Chosen, Description};
use md_forms::Entry;
use md_output::{fill, lines_of};
use md_text::Template;
use plain_data::{Items, Memory};
use rtx_tree::{Insn, Name};
use rv_text::{CodeItem, Line};
use std::alloc::Global;

fn template_in(entry: &Entry) -> Option<&Template>
    ensures { option_copied result ≡ spec.template_in entry.entry.now.form }
{
    match &entry.form {
        Ok(form) => Some(&form.template),
        Err(_) => None,
    }
}

/// The template of the form with an index, where that is accepted.
fn template_at(forms: &[Entry], index: u32) -> Option<&Template>
    ensures { option_copied result ≡ spec.template_at forms.entry.now index }
{
    match forms.get(index as usize) {
        Some(entry) => template_in(entry),
        None => None,
    }
}

/// The template of the chosen form, filled with the operands of an instruction.
pub fn text_of(
    alloc: Global,
    description: &Description,
    number: u32,
    insn: &Insn,
    chosen: &Chosen,
) -> Result<Vec<u8>, Memory>
    ensures { IfOk result (λ text.
        text.items ≡ spec.text_of description.now number insn.now chosen.now) }
{
    let mut text = Vec::new(alloc);
    if let Some(template) = template_at(description.forms().as_slice(), chosen.form) {
        let operands = &chosen.operands;
        fill(
            template,
            chosen.alternative,
            operands,
            number,
            insn.uid,
            &mut text,
        )?;
    }
    Ok(text)
}

/// The lines of a text.
pub fn read_lines(alloc: Global, text: &[u8]) -> Result<Items<Line>, Memory>
    ensures { IfOk result (λ lines. AreLinesOf text.now lines) }
{
    let texts = lines_of(alloc, text)?;
    md_output::read_lines(alloc, texts.as_slice())
}

/// A text as it stands in the assembly.
fn written(alloc: Global, text: &[u8]) -> Result<Name, Memory>
    ensures { IfOk result (λ name. name ≡ spec.written text.now) }
{
    let mut out = Vec::new(alloc);
    out.push(b'\t')?;
    out.extend_from_slice(text)?;
    out.push(b'\n')?;
    Ok(Name::from_vec(out))
}

fn code_of(alloc: Global, lines: Items<Line>) -> Result<Items<CodeItem>, Memory>
    ensures { IfOk result (λ items. items ≡ map item.Code lines) }
{
    let mut items = Items::new(alloc);
    for line in lines.into_vec() {
        items.push(CodeItem::Code { line })?;
    }
    Ok(items)
}

/// The text that is written for an instruction, with its lines.
pub fn code_piece(alloc: Global, text: &[u8], lines: Items<Line>) -> Result<Piece, Memory>
    ensures { IfOk result (λ piece.
        piece ≡ record { text = spec.written text.now; items = map item.Code lines }) }
{
    let text = written(alloc, text)?;
    let items = code_of(alloc, lines)?;
    Ok(Piece { text, items })
}
