//! Templates filled with operands.
ghost use Rattle.std.specs.Prelude.{◌≡◌, ◌++◌, OnErr, OnOk, IfOk, flat_map};
ghost use Rattle.md_output.specs.Filled as spec;

use crate::sequence::print_operand;
use md_text::{Piece, Template, parts_of};
use plain_data::{Items, Memory};
use rtx_tree::{Name, Operands};
use std::alloc::Global;
use text_words::print_count;

/// Prints a piece of a template.
fn print_piece(
    piece: Piece,
    operands: &Operands,
    function: u32,
    uid: u32,
    out: &mut Vec<u8>,
) -> Result<(), Memory>
    ensures { OnOk result (out.new.items ≡ out.old.items
        ++ spec.piece_text function uid operands.now piece) }
{
    match piece {
        Piece::Byte(byte) => {
            out.push(byte)?;
            Ok(())
        }
        Piece::Operand { print, number } => {
            print_operand(function, print, operands.get(number as usize), out)
        }
        Piece::Uid => print_count(u64::from(uid), out),
    }
}

fn print_pieces(
    pieces: &[Piece],
    operands: &Operands,
    function: u32,
    uid: u32,
    out: &mut Vec<u8>,
) -> Result<(), Memory>
    ensures { OnOk result (out.new.items ≡ out.old.items
        ++ flat_map (spec.piece_text function uid operands.now) pieces.now) }
{
    for piece in pieces {
        print_piece(*piece, operands, function, uid, out)?;
    }
    Ok(())
}

/// The pieces that a template has for an alternative.
fn pieces_in(template: &Template, alternative: u32) -> &[Piece]
    ensures { result.now ≡ spec.pieces_in template.entry.now alternative }
{
    match template {
        Template::Split => &[],
        Template::One(line) => line.as_slice(),
        Template::Each(lines) => match lines.as_slice().get(alternative as usize) {
            Some(line) => line.as_slice(),
            None => &[],
        },
    }
}

/// Appends the text that a template gives in an alternative, counted from 0, for the operands of an
/// instruction with a uid, in a function with a number. Where memory runs out `out` holds what it
/// held.
pub fn fill(
    template: &Template,
    alternative: u32,
    operands: &Operands,
    function: u32,
    uid: u32,
    out: &mut Vec<u8>,
) -> Result<(), Memory>
    ensures fills { OnOk result (out.new.items ≡ out.old.items
        ++ spec.filled template.now alternative function uid operands.now) }
    ensures kept { OnErr result (out.new.items ≡ out.old.items) }
{
    let mut text = Vec::new(*out.allocator());
    let pieces = pieces_in(template, alternative);
    print_pieces(pieces, operands, function, uid, &mut text)?;
    out.extend_from_slice(text.as_slice())?;
    Ok(())
}

/// The lines of a text, between its newlines; the empty text has none.
pub fn lines_of(alloc: Global, text: &[u8]) -> Result<Items<Name>, Memory>
    ensures { IfOk result (λ lines. lines ≡ spec.lines_of text.now) }
{
    if text.is_empty() {
        return Ok(Items::new(alloc));
    }
    parts_of(alloc, text, b'\n')
}
