//! Where the lines of a function lead to and stand.
ghost use Rattle.std.specs.Prelude.{◌≡◌, IfOk, map};
ghost use Rattle.rv_unit.specs.Layout as spec;
ghost use Rattle.rv_unit.specs.Layout.{IsLayout};
ghost use Rattle.rv_unit.specs.Names as names;
ghost use Rattle.rv_unit.specs.machine.Labels.{lead_in, piece_in};

use crate::labels::{labels_of, lead_of};
use crate::names::spelling_named;
use long_branches::{Piece, least_long, places_of};
use name_places::Places;
use plain_data::{Items, Memory};
use rv_text::{CodeItem, Line};
use rv_word::{Spelling, word_count};
use std::alloc::Global;

/// Where the items of a function lead to and stand.
#[derive(Drop)]
pub struct Layout {
    /// The number of the item that each item leads to.
    pub leads: Items<usize>,
    /// Whether each item is a branch that is long.
    pub longs: Items<bool>,
    /// How many words stand before each item, and how many there are.
    pub places: Items<u64>,
    /// How many words there are.
    pub size: u64,
}

/// Whether words are those of a branch.
fn is_branch(spelling: Spelling) -> bool
    ensures { result ≡ spec.is_branch spelling }
{
    matches!(spelling, Spelling::Near { .. })
}

/// A line as a piece of code.
fn line_piece(alloc: Global, line: &Line, to: usize) -> Result<Piece, Memory>
    ensures { IfOk result (λ piece. piece ≡
        spec.line_piece (names.spelling_named line.now.name) line.now to) }
{
    let Some(spelling) = spelling_named(line.name.bytes()) else {
        return Ok(Piece::Fixed { words: 0 });
    };
    if is_branch(spelling) {
        return Ok(Piece::Branch { to });
    }
    let words = word_count(alloc, spelling, line, false)?;
    Ok(Piece::Fixed { words })
}

/// An item as a piece of code.
fn item_piece(alloc: Global, item: &CodeItem, to: usize) -> Result<Piece, Memory>
    ensures { IfOk result (λ piece. piece ≡ spec.item_piece item.now to) }
{
    match item {
        CodeItem::Label { .. } => Ok(Piece::Fixed { words: 0 }),
        CodeItem::Code { line } => line_piece(alloc, line, to),
    }
}

/// What each item leads to.
fn leads_of(alloc: Global, items: &[CodeItem], labels: &Places) -> Result<Items<usize>, Memory>
    ensures { IfOk result (λ leads. leads ≡ map (lead_in labels.now) items.now) }
{
    let mut leads = Items::new(alloc);
    for item in items {
        leads.push(lead_of(labels, item))?;
    }
    Ok(leads)
}

/// The pieces of a function's code.
fn pieces_of(alloc: Global, items: &[CodeItem], labels: &Places) -> Result<Items<Piece>, Memory>
    ensures { IfOk result (λ pieces. pieces ≡ map (piece_in labels.now) items.now) }
{
    let mut pieces = Items::new(alloc);
    for item in items {
        let piece = item_piece(alloc, item, lead_of(labels, item))?;
        pieces.push(piece)?;
    }
    Ok(pieces)
}

/// Where a function's items lead to and stand.
pub fn layout_of(alloc: Global, items: &[CodeItem]) -> Result<Layout, Memory>
    ensures { IfOk result (IsLayout items.now) }
{
    let labels = labels_of(alloc, items)?;
    let leads = leads_of(alloc, items, &labels)?;
    let pieces = pieces_of(alloc, items, &labels)?;
    let longs = least_long(alloc, pieces.as_slice())?;
    let places = places_of(alloc, pieces.as_slice(), &longs)?;
    let size = *places.item(items.len());
    Ok(Layout {
        leads,
        longs: Items::from_vec(longs),
        places,
        size,
    })
}
