//! An image as text.
ghost use Rattle.std.specs.Prelude.{◌≡◌, ◌++◌, OnOk, IfOk, flat_map, min};
ghost use Rattle.rv_image.specs.Image.{first_entry};
ghost use Rattle.image_text.specs.Text as spec;

use crate::words::{print_hex, print_words};
use plain_data::Memory;
use rtx_tree::SymbolAt;
use rv_image::{FIRST_ENTRY, Image};
use std::alloc::Global;
use text_words::print_text;

/// Prints the line of a function's name.
fn print_name(name: &[u8], out: &mut Vec<u8>) -> Result<(), Memory>
    ensures { OnOk result (out.new.items ≡ out.old.items ++ spec.name_line name.now) }
{
    print_text(name, out)?;
    print_text(b":\n", out)
}

/// How many words stand from one address to another, of so many at most.
fn words_between(from: u64, to: u64, most: usize) -> usize
    ensures { result ≡ min (spec.words_between from to) most }
{
    let count = to.saturating_sub(from) / 4;
    if count < most as u64 {
        count as usize
    } else {
        most
    }
}

/// Prints the words of functions, and before the word at each entry the name of its function.
fn print_functions(entries: &[SymbolAt], words: &[u32], out: &mut Vec<u8>) -> Result<(), Memory>
    ensures { OnOk result (out.new.items ≡ out.old.items ++
        spec.lines_from first_entry entries.now words.now) }
{
    let mut address = FIRST_ENTRY;
    let mut rest = words;
    for entry in entries {
        let count = words_between(address, entry.address, rest.len());
        print_words(address, &rest[..count], out)?;
        print_name(entry.name.bytes(), out)?;
        address = entry.address;
        rest = &rest[count..];
    }
    print_words(address, rest, out)
}

/// Prints the line of a symbol that is no function.
fn print_outside(symbol: &SymbolAt, out: &mut Vec<u8>) -> Result<(), Memory>
    ensures { OnOk result (out.new.items ≡ out.old.items ++ spec.outside_line symbol.now) }
{
    print_text(symbol.name.bytes(), out)?;
    print_text(b" = ", out)?;
    print_hex(symbol.address, out)?;
    out.push(b'\n')?;
    Ok(())
}

/// Prints the lines of the symbols that are no function.
fn print_symbols(symbols: &[SymbolAt], out: &mut Vec<u8>) -> Result<(), Memory>
    ensures { OnOk result (out.new.items ≡ out.old.items ++
        flat_map spec.outside_line symbols.now) }
{
    for symbol in symbols {
        print_outside(symbol, out)?;
    }
    Ok(())
}

/// The text of an image.
pub fn text_of(alloc: Global, image: &Image) -> Result<Vec<u8>, Memory>
    ensures { IfOk result (λ text. text.items ≡ spec.image_text image.now) }
{
    let mut text = Vec::new(alloc);
    print_functions(image.entries.as_slice(), image.words.as_slice(), &mut text)?;
    print_symbols(image.outside.as_slice(), &mut text)?;
    Ok(text)
}
