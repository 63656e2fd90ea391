//! The lines round those of a function's instructions, and the lines of labels.
ghost use Rattle.std.specs.Prelude.{◌≡◌, ◌++◌, ◌<◌, ◌^◌, OnOk, IfOk};
ghost use Rattle.asm_out.specs.Frame as spec;
ghost use Rattle.asm_out.specs.Comes as comes;
ghost use Rattle.asm_out.specs.Outcome.{only_text};

use crate::piece::Piece;
use md_output::print_label;
use plain_data::{Items, Memory};
use rtx_tree::Name;
use rv_text::CodeItem;
use std::alloc::Global;
use text_words::print_text;

fn print_global(name: &[u8], out: &mut Vec<u8>) -> Result<(), Memory>
    ensures { OnOk result (out.new.items ≡ out.old.items ++ spec.global_line name.now) }
{
    print_text(b"\t.globl\t", out)?;
    print_text(name, out)?;
    print_text(b"\n", out)
}

fn print_type(name: &[u8], out: &mut Vec<u8>) -> Result<(), Memory>
    ensures { OnOk result (out.new.items ≡ out.old.items ++ spec.type_line name.now) }
{
    print_text(b"\t.type\t", out)?;
    print_text(name, out)?;
    print_text(b", @function\n", out)
}

fn print_name(name: &[u8], out: &mut Vec<u8>) -> Result<(), Memory>
    ensures { OnOk result (out.new.items ≡ out.old.items ++ spec.name_line name.now) }
{
    print_text(name, out)?;
    print_text(b":\n", out)
}

fn print_names(name: &[u8], out: &mut Vec<u8>) -> Result<(), Memory>
    ensures { OnOk result (out.new.items ≡ out.old.items ++ spec.name_lines name.now) }
{
    print_global(name, out)?;
    print_type(name, out)?;
    print_name(name, out)
}

fn print_opening(name: &[u8], out: &mut Vec<u8>) -> Result<(), Memory>
    ensures { OnOk result (out.new.items ≡ out.old.items ++ spec.opening_lines name.now) }
{
    print_text(b"\t.text\n\t.align\t2\n", out)?;
    print_names(name, out)
}

fn print_closing(name: &[u8], out: &mut Vec<u8>) -> Result<(), Memory>
    ensures { OnOk result (out.new.items ≡ out.old.items ++ spec.closing_line name.now) }
{
    print_text(b"\t.size\t", out)?;
    print_text(name, out)?;
    print_text(b", .-", out)?;
    print_text(name, out)?;
    print_text(b"\n", out)
}

/// A text of which nothing is an item.
pub fn only_text(alloc: Global, text: Vec<u8>) -> Piece
    ensures { result ≡ only_text text.items }
{
    Piece {
        text: Name::from_vec(text),
        items: Items::new(alloc),
    }
}

/// The lines before a function's instructions.
pub fn opening(alloc: Global, name: &Name) -> Result<Piece, Memory>
    ensures { IfOk result (λ piece. piece ≡ only_text (spec.opening_lines name.now)) }
{
    let mut text = Vec::new(alloc);
    print_opening(name.bytes(), &mut text)?;
    Ok(only_text(alloc, text))
}

/// The line behind them.
pub fn closing(alloc: Global, name: &Name) -> Result<Piece, Memory>
    ensures { IfOk result (λ piece. piece ≡ only_text (spec.closing_line name.now)) }
{
    let mut text = Vec::new(alloc);
    print_closing(name.bytes(), &mut text)?;
    Ok(only_text(alloc, text))
}

fn print_label_line(function: u32, uid: u32, out: &mut Vec<u8>) -> Result<(), Memory>
    ensures { OnOk result (out.new.items ≡ out.old.items ++ spec.label_line function uid) }
{
    print_label(function, u64::from(uid), out)?;
    print_text(b":\n", out)
}

/// The line of a label of a function.
pub fn label(alloc: Global, function: u32, uid: u32) -> Result<Piece, Memory>
    ensures piece { IfOk result (λ piece. piece ≡ comes.label_piece function uid) }
    ensures small { uid < 2 ^ 32 }
{
    let mut text = Vec::new(alloc);
    print_label_line(function, uid, &mut text)?;
    let mut items = Items::new(alloc);
    items.push(CodeItem::Label { function, uid })?;
    Ok(Piece {
        text: Name::from_vec(text),
        items,
    })
}
