//! Functions become an image.
ghost use Rattle.std.specs.Prelude.{◌≡◌, ◌+◌, ◌*◌, ◌++◌, IfOk};
ghost use Rattle.rv_image.specs.Image as spec;
ghost use Rattle.rv_image.specs.Image.{IsAssembled, IsOne};
ghost use Rattle.rv_image.specs.machine.Steps.{AreLaid, IsLaidImage, entries_in, words_by, words_in};

use crate::image::{AssembleRefusal, CodeUnit, FIRST_ENTRY, Image};
use crate::outside::{outside_names, outside_of};
use plain_data::{Items, Memory};
use rtx_tree::{MOST_IMAGE, SymbolAt, Symbols};
use rv_unit::{Layout, SymbolTable, layout_of, push_unit};
use std::alloc::Global;

/// The layout of each function.
fn layouts_of(alloc: Global, units: &[CodeUnit]) -> Result<Items<Layout>, Memory>
    ensures { IfOk result (AreLaid units.now) }
{
    let mut layouts = Items::new(alloc);
    for unit in units {
        layouts.push(layout_of(alloc, unit.items.as_slice())?)?;
    }
    Ok(layouts)
}

/// A number of bytes behind an address. What doesn't fit 64 bits is more than memory holds.
fn behind(address: u64, words: u64) -> Result<u64, Memory>
    ensures { IfOk result (λ next. next ≡ address + 4 * words) }
{
    let bytes = words.checked_mul(4).ok_or(Memory)?;
    address.checked_add(bytes).ok_or(Memory)
}

/// How many bytes all functions have.
fn bytes_of(layouts: &[Layout]) -> Result<u64, Memory>
    ensures { IfOk result (λ bytes. bytes ≡ 4 * words_in layouts.now) }
{
    let mut bytes = 0;
    for layout in layouts {
        bytes = behind(bytes, layout.size)?;
    }
    Ok(bytes)
}

/// The functions' entries.
fn entries_of(alloc: Global, units: &[CodeUnit], layouts: &[Layout]) -> Result<Symbols, Memory>
    requires { AreLaid units.now layouts.now }
    ensures { IfOk result (λ entries. entries ≡ entries_in spec.first_entry units.now layouts.now) }
{
    let mut entries = Items::new(alloc);
    let mut address = FIRST_ENTRY;
    for (at, unit) in units.iter().enumerate() {
        let name = unit.name.copy(alloc)?;
        entries.push(SymbolAt { name, address })?;
        address = behind(address, layouts[at].size)?;
    }
    Ok(entries)
}

/// The words of the functions.
fn words_of(
    alloc: Global,
    units: &[CodeUnit],
    layouts: &[Layout],
    symbols: &SymbolTable,
) -> Result<Items<u32>, Memory>
    requires { AreLaid units.now layouts.now }
    ensures { IfOk result (λ words. words ≡ words_by symbols.now units.now layouts.now) }
{
    let mut words = Items::new(alloc);
    for (at, unit) in units.iter().enumerate() {
        push_unit(unit.items.as_slice(), &layouts[at], symbols, &mut words)?;
    }
    Ok(words)
}

/// A copy of some symbols.
fn copy_of(alloc: Global, symbols: &Symbols) -> Result<Symbols, Memory>
    ensures { IfOk result (λ copy. copy ≡ symbols.now) }
{
    let mut copy = Items::new(alloc);
    for symbol in symbols.as_slice() {
        copy.push(SymbolAt {
            name: symbol.name.copy(alloc)?,
            address: symbol.address,
        })?;
    }
    Ok(copy)
}

/// All symbols with their addresses, each found at once.
fn table_of(alloc: Global, entries: &Symbols, outside: &Symbols) -> Result<SymbolTable, Memory>
    ensures { IfOk result (λ table. table ≡ entries.now ++ outside.now) }
{
    let first = copy_of(alloc, entries)?;
    let symbols = first.append(copy_of(alloc, outside)?)?;
    SymbolTable::of(alloc, symbols)
}

/// The image of functions that have layouts.
fn image_of(alloc: Global, units: &[CodeUnit], layouts: &[Layout]) -> Result<Image, Memory>
    requires { AreLaid units.now layouts.now }
    ensures { IfOk result (IsLaidImage units.now layouts.now) }
{
    let entries = entries_of(alloc, units, layouts)?;
    let names = outside_names(alloc, units)?;
    let outside = outside_of(alloc, names.as_slice())?;
    let table = table_of(alloc, &entries, &outside)?;
    let words = words_of(alloc, units, layouts, &table)?;
    Ok(Image {
        words,
        entries,
        outside,
    })
}

/// The image of some functions, or how many bytes it has where these are too many. There is one.
#[tactic(auto, using(crate::proofs::One::is_one))]
pub fn assemble(alloc: Global, units: &[CodeUnit]) -> Result<Image, AssembleRefusal>
    ensures gives { IsAssembled units.now result }
    ensures one { IsOne }
{
    let layouts = layouts_of(alloc, units)?;
    let size = bytes_of(layouts.as_slice())?;
    if size > MOST_IMAGE {
        return Err(AssembleRefusal::Limit { size });
    }
    let image = image_of(alloc, units, layouts.as_slice())?;
    Ok(image)
}
