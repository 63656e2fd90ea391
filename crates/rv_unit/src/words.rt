//! The words of a function's lines.
ghost use Rattle.std.specs.Prelude.{◌≡◌, ◌++◌, ◌*◌, ◌<◌, ◌^◌, ◌≤ℤ◌, ◌-ℤ◌, pos, negsuc, IfOk, OnOk, map, slice_index};
ghost use Rattle.long_branches.specs.Branches as branches;
ghost use Rattle.rv_unit.specs.Layout.{IsLayout};
ghost use Rattle.rv_unit.specs.Names as names;
ghost use Rattle.rv_unit.specs.Words as spec;
ghost use Rattle.rv_unit.specs.Words.{words_of};
ghost use Rattle.rv_unit.specs.machine.Labels.{bases_in, further_in};
ghost use Rattle.rv_word.specs.Word.{encode};

use crate::layout::Layout;
use crate::names::spelling_named;
use crate::symbols::SymbolTable;
use plain_data::{Items, Memory};
use rv_text::{CodeItem, Line};
use rv_word::push_words;

/// Puts the words of a line behind others.
fn push_line(
    line: &Line,
    long: bool,
    further: i64,
    address: u64,
    words: &mut Items<u32>,
) -> Result<(), Memory>
    requires { negsuc 1099511627775 ≤ℤ further }
    ensures { OnOk result (words.new ≡ words.old ++
        map encode (spec.line_bases (names.spelling_named line.now.name) line.now long further address)) }
{
    match spelling_named(line.name.bytes()) {
        None => Ok(()),
        Some(spelling) => push_words(spelling, line, long, further, address, words),
    }
}

/// The address of a symbol; where it has none, 0.
fn address_in(symbols: &SymbolTable, name: &[u8]) -> u64
    ensures { result ≡ spec.address_in symbols.now name.now }
{
    symbols.address_of(name).unwrap_or(0)
}

/// A number of a list, and 0 behind its end.
fn place_at(places: &[u64], at: usize) -> u64
    ensures { result ≡ slice_index places.now at }
{
    places.get(at).copied().unwrap_or(0)
}

fn lead_at(leads: &[usize], at: usize) -> usize
    ensures { result ≡ slice_index leads.now at }
{
    leads.get(at).copied().unwrap_or(0)
}

fn long_at(longs: &[bool], at: usize) -> bool
    ensures { result ≡ branches.is_long longs.now at }
{
    longs.get(at).copied().unwrap_or(false)
}

/// How many bytes so many words are. A function of 2^38 words is more than memory holds.
fn bytes(words: u64) -> Result<i64, Memory>
    ensures value { IfOk result (λ bytes. bytes ≡ pos (4 * words)) }
    ensures bound { IfOk result (λ bytes. bytes ≤ℤ pos 1099511627775) }
{
    if words < 274_877_906_944 {
        Ok((4 * words).cast_signed())
    } else {
        Err(Memory)
    }
}

/// How many bytes one place is behind another.
fn distance(from: u64, to: u64) -> Result<i64, Memory>
    ensures value { IfOk result (λ bytes. bytes ≡ pos (4 * to) -ℤ pos (4 * from)) }
    ensures bound { IfOk result (λ bytes. negsuc 1099511627775 ≤ℤ bytes) }
{
    let here = bytes(from)?;
    let there = bytes(to)?;
    Ok(there - here)
}

/// How many bytes behind an item the item stands that it leads to.
fn further(layout: &Layout, at: usize) -> Result<i64, Memory>
    ensures value { IfOk result (λ bytes. bytes ≡ further_in layout.now at) }
    ensures bound { IfOk result (λ bytes. negsuc 1099511627775 ≤ℤ bytes) }
{
    let places = layout.places.as_slice();
    let to = lead_at(layout.leads.as_slice(), at);
    distance(place_at(places, at), place_at(places, to))
}

/// Puts the words of an item behind others.
fn push_item(
    item: &CodeItem,
    at: usize,
    layout: &Layout,
    symbols: &SymbolTable,
    words: &mut Items<u32>,
) -> Result<(), Memory>
    ensures { OnOk result (words.new ≡ words.old ++
        map encode (bases_in layout.now symbols.now at item.now)) }
{
    match item {
        CodeItem::Label { .. } => Ok(()),
        CodeItem::Code { line } => {
            let long = long_at(layout.longs.as_slice(), at);
            let further = further(layout, at)?;
            let address = address_in(symbols, line.target.bytes());
            push_line(line, long, further, address, words)
        }
    }
}

/// Puts the words of a function's lines behind others.
pub fn push_unit(
    items: &[CodeItem],
    layout: &Layout,
    symbols: &SymbolTable,
    words: &mut Items<u32>,
) -> Result<(), Memory>
    requires { IsLayout items.now layout.now }
    ensures { OnOk result (words.new ≡ words.old ++ words_of (record {
      items = items.now;
      longs = layout.now.longs;
      symbols = symbols.now;
    })) }
{
    for (at, item) in items.iter().enumerate() {
        push_item(item, at, layout, symbols, words)?;
    }
    Ok(())
}
