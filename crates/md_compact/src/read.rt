//! Reads a block.
ghost use Rattle.std.specs.Prelude.{◌≡◌, IfOk};
ghost use Rattle.md_text.specs.Lists.{each};
ghost use Rattle.md_compact.specs.Block as spec;

use crate::block::{Block, Layout, Row};
use crate::layout::layout_of;
use crate::lines::{bracketed, kept, past_blank};
use md_text::{members_of, parts_of, trimmed};
use plain_data::{Items, Memory};
use rtx_tree::Name;
use std::alloc::Global;
use text_words::behind_blanks;

// ---- rows

fn row_with(layout: &Layout, output: Name, entries: Items<Name>, values: Items<Name>) -> Option<Row>
    ensures { result ≡ spec.row_with layout.now output entries values }
{
    if entries.len() == layout.columns.len() && values.len() == layout.names.len() {
        Some(Row {
            entries,
            values,
            output,
        })
    } else {
        None
    }
}

/// The row of the parts between semicolons.
fn row_by(
    alloc: Global,
    layout: &Layout,
    output: &[u8],
    parts: &[Name],
) -> Result<Option<Row>, Memory>
    ensures { IfOk result (λ row. row ≡ spec.row_by layout.now output.now parts.now) }
{
    match parts {
        [entries] => {
            let entries = members_of(alloc, entries.bytes())?;
            let output = Name::of(alloc, output)?;
            Ok(row_with(layout, output, entries, Items::new(alloc)))
        }
        [entries, values] => {
            let entries = members_of(alloc, entries.bytes())?;
            let values = members_of(alloc, values.bytes())?;
            let output = Name::of(alloc, output)?;
            Ok(row_with(layout, output, entries, values))
        }
        _ => Ok(None),
    }
}

/// The row of a line.
fn row_of(alloc: Global, layout: &Layout, line: &[u8]) -> Result<Option<Row>, Memory>
    ensures { IfOk result (λ row. row ≡ spec.row_of layout.now line.now) }
{
    let Some((inside, output)) = bracketed(line) else {
        return Ok(None);
    };
    let parts = parts_of(alloc, inside, b';')?;
    row_by(alloc, layout, trimmed(output), parts.as_slice())
}

#[tactic(auto, using(md_text::proofs::Each::with_nothing, md_text::proofs::Each::each_next, md_text::proofs::Each::each_stops, md_text::proofs::Each::each_ends))]
fn rows_of(alloc: Global, layout: &Layout, lines: &[Name]) -> Result<Option<Items<Row>>, Memory>
    ensures { IfOk result (λ rows. rows ≡ each (spec.row_of layout.now) lines.now) }
{
    let mut rows = Items::new(alloc);
    for line in lines {
        match row_of(alloc, layout, line.bytes())? {
            Some(row) => rows.push(row)?,
            None => return Ok(None),
        }
    }
    Ok(Some(rows))
}

// ---- the block

fn with_rows(layout: Layout, rows: Items<Row>) -> Option<Block>
    ensures { result ≡ spec.with_rows layout rows }
{
    if rows.is_empty() {
        None
    } else {
        Some(Block { layout, rows })
    }
}

/// The block of a layout and the lines behind it.
fn with_lines(alloc: Global, lines: &[Name], layout: Layout) -> Result<Option<Block>, Memory>
    ensures { IfOk result (λ block. block ≡ spec.with_lines lines.now layout) }
{
    match rows_of(alloc, &layout, past_blank(lines))? {
        Some(rows) => Ok(with_rows(layout, rows)),
        None => Ok(None),
    }
}

/// The block whose text stands behind `@`.
fn behind_at(alloc: Global, text: &[u8]) -> Result<Option<Block>, Memory>
    ensures { IfOk result (λ block. block ≡ spec.behind_at text.now) }
{
    let Some((inside, rest)) = bracketed(text) else {
        return Ok(None);
    };
    let parts = parts_of(alloc, inside, b';')?;
    let Some(layout) = layout_of(alloc, parts.as_slice())? else {
        return Ok(None);
    };
    let lines = parts_of(alloc, rest, b'\n')?;
    with_lines(alloc, lines.as_slice(), layout)
}

/// The block that a text is, behind blanks and `@`, or none where it is none.
#[tactic(auto, unfolding(crate::specs::Block::block_of))]
pub fn block_of(alloc: Global, text: &[u8]) -> Result<Option<Block>, Memory>
    ensures { IfOk result (λ block. block ≡ spec.block_of text.now) }
{
    let [b'@', rest @ ..] = behind_blanks(text) else {
        return Ok(None);
    };
    let lines = parts_of(alloc, rest, b'\n')?;
    let text = kept(alloc, lines.as_slice())?;
    behind_at(alloc, text.as_slice())
}
