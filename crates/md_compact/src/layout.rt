//! The layout of a block.
ghost use Rattle.std.specs.Prelude.{◌≡◌, IfOk};
ghost use Rattle.md_text.specs.Lists.{each};
ghost use Rattle.md_compact.specs.Layout as spec;

use crate::block::{Column, Layout, Mark};
use crate::lines::behind_word;
use md_text::{members_of, operand_number};
use plain_data::{Items, Memory};
use rtx_tree::Name;
use std::alloc::Global;
use text_words::behind_blanks;

// ---- columns

fn numbered(mark: Mark, text: &[u8]) -> Option<Column>
    ensures { result ≡ spec.numbered mark text.now }
{
    let operand = operand_number(behind_blanks(text))?;
    Some(Column { operand, mark })
}

/// `=NUMBER`, `+NUMBER` or `NUMBER`
fn column_of(text: &[u8]) -> Option<Column>
    ensures { result ≡ spec.column_of text.now }
{
    match text {
        [] => None,
        [b'=', rest @ ..] => numbered(Mark::Output, rest),
        [b'+', rest @ ..] => numbered(Mark::Both, rest),
        _ => numbered(Mark::Nothing, text),
    }
}

#[tactic(auto, using(md_text::proofs::Each::with_nothing, md_text::proofs::Each::each_next, md_text::proofs::Each::each_stops, md_text::proofs::Each::each_ends))]
fn all_columns(alloc: Global, members: &[Name]) -> Result<Option<Items<Column>>, Memory>
    ensures { IfOk result (λ columns. columns ≡ each spec.column_of members.now) }
{
    let mut columns = Items::new(alloc);
    for member in members {
        match column_of(member.bytes()) {
            Some(column) => columns.push(column)?,
            None => return Ok(None),
        }
    }
    Ok(Some(columns))
}

/// `cons: COLUMNS`
fn columns_of(alloc: Global, text: &[u8]) -> Result<Option<Items<Column>>, Memory>
    ensures { IfOk result (λ columns. columns ≡ spec.columns_of text.now) }
{
    let Some(list) = behind_word(b"cons:", behind_blanks(text)) else {
        return Ok(None);
    };
    let members = members_of(alloc, list)?;
    all_columns(alloc, members.as_slice())
}

// ---- names

fn are_named(names: &[Name]) -> bool
    ensures { result ≡ spec.are_named names.now }
{
    names.iter().all(|name| name.bytes().len() > 0)
}

/// `attrs: NAMES`
fn names_of(alloc: Global, text: &[u8]) -> Result<Option<Items<Name>>, Memory>
    ensures { IfOk result (λ names. names ≡ spec.names_of text.now) }
{
    let Some(list) = behind_word(b"attrs:", behind_blanks(text)) else {
        return Ok(None);
    };
    let names = members_of(alloc, list)?;
    if are_named(names.as_slice()) {
        Ok(Some(names))
    } else {
        Ok(None)
    }
}

// ---- both

fn layout_with(columns: Option<Items<Column>>, names: Option<Items<Name>>) -> Option<Layout>
    ensures { result ≡ spec.layout_with columns names }
{
    match (columns, names) {
        (Some(columns), Some(names)) => Some(Layout { columns, names }),
        _ => None,
    }
}

/// The layout of the parts between semicolons.
pub fn layout_of(alloc: Global, parts: &[Name]) -> Result<Option<Layout>, Memory>
    ensures { IfOk result (λ layout. layout ≡ spec.layout_of parts.now) }
{
    match parts {
        [columns] => {
            let columns = columns_of(alloc, columns.bytes())?;
            Ok(layout_with(columns, Some(Items::new(alloc))))
        }
        [columns, names] => {
            let columns = columns_of(alloc, columns.bytes())?;
            let names = names_of(alloc, names.bytes())?;
            Ok(layout_with(columns, names))
        }
        _ => Ok(None),
    }
}
