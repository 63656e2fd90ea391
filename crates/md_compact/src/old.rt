//! What a block stands for in a form without it.
ghost use Rattle.std.specs.Prelude.{◌≡◌, ◌++◌, ◌∷◌, [], IfOk, OnOk, slice_index_or};
ghost use Rattle.std.specs.List.{flat_map};
ghost use Rattle.md_compact.specs.Old as spec;

use crate::block::{Block, Column, Mark, Row};
use plain_data::{Items, Memory};
use rtx_tree::Name;
use std::alloc::Global;
use text_words::print_text;

// ---- constraints

fn mark_text(mark: Mark) -> &'static [u8]
    ensures { result.now ≡ spec.mark_text mark }
{
    match mark {
        Mark::Nothing => b"",
        Mark::Output => b"=",
        Mark::Both => b"+",
    }
}

fn text_at(texts: &[Name], at: usize) -> &[u8]
    ensures { result.now ≡ slice_index_or texts.entry.now at [] }
{
    match texts.get(at) {
        Some(text) => text.bytes(),
        None => &[],
    }
}

/// Appends the entries of rows behind the first.
fn print_further(rows: &[Row], at: usize, out: &mut Vec<u8>) -> Result<(), Memory>
    ensures { OnOk result (out.new.items ≡ out.old.items
        ++ flat_map (λ row. 44 ∷ spec.entry at row) rows.now) }
{
    for row in rows {
        out.push(b',')?;
        print_text(text_at(row.entries.as_slice(), at), out)?;
    }
    Ok(())
}

/// Appends the entries of a column, with commas between.
fn print_entries(rows: &[Row], at: usize, out: &mut Vec<u8>) -> Result<(), Memory>
    ensures { OnOk result (out.new.items ≡ out.old.items ++ spec.entries at rows.now) }
{
    match rows {
        [] => Ok(()),
        [first, more @ ..] => {
            print_text(text_at(first.entries.as_slice(), at), out)?;
            print_further(more, at, out)
        }
    }
}

/// The constraint that a column at an index gives its operand: the mark, and the entries of all
/// rows with commas between.
#[tactic(auto, unfolding(crate::specs::Old::column_text))]
pub fn column_text(alloc: Global, block: &Block, at: usize, column: Column) -> Result<Name, Memory>
    ensures { IfOk result (λ text. text ≡ spec.column_text block.now at column) }
{
    let mut text = Vec::new(alloc);
    print_text(mark_text(column.mark), &mut text)?;
    print_entries(block.rows.as_slice(), at, &mut text)?;
    Ok(Name::from_vec(text))
}

// ---- attributes

/// What the attribute at an index has in each row.
#[tactic(auto, unfolding(crate::specs::Old::values_at))]
pub fn values_at(alloc: Global, block: &Block, at: usize) -> Result<Items<Name>, Memory>
    ensures { IfOk result (λ values. values ≡ spec.values_at block.now at) }
{
    let mut values = Items::new(alloc);
    for row in block.rows.as_slice() {
        values.push(Name::of(alloc, text_at(row.values.as_slice(), at))?)?;
    }
    Ok(values)
}

// ---- the template

/// Whether an output begins with `<<`.
fn is_expression(output: &[u8]) -> bool
    ensures { result ≡ spec.is_expression output.now }
{
    matches!(output, [b'<', b'<', ..])
}

/// Whether an output is C code behind `<<`.
#[tactic(auto, unfolding(crate::specs::Old::has_expression))]
pub fn has_expression(block: &Block) -> bool
    ensures { result ≡ spec.has_expression block.now }
{
    block
        .rows
        .as_slice()
        .iter()
        .any(|row| is_expression(row.output.bytes()))
}

/// The template of a form without the block: `@`, and each output on a line of its own.
#[tactic(auto, unfolding(crate::specs::Old::old_template))]
pub fn old_template(alloc: Global, block: &Block) -> Result<Vec<u8>, Memory>
    ensures { IfOk result (λ text. text.items ≡ spec.old_template block.now) }
{
    let mut text = Vec::new(alloc);
    text.push(b'@')?;
    for row in block.rows.as_slice() {
        text.push(b'\n')?;
        print_text(row.output.bytes(), &mut text)?;
    }
    Ok(text)
}
