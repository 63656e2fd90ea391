//! The symbols that lines name and that are no function.
ghost use Rattle.std.specs.Prelude.{◌≡◌, ◌∷◌, [], IfOk, OnOk, ℕ, List};
ghost use Rattle.std.specs.List.{flat_map};
ghost use Rattle.rv_image.specs.Image as spec;
ghost use Rattle.rv_image.specs.machine.Steps.{Takes, knows};
ghost use Rattle.rv_unit.specs.Names as names;

use crate::image::CodeUnit;
use name_places::Places;
use plain_data::{Items, Memory};
use rtx_tree::{Name, SymbolAt, Symbols};
use rv_text::CodeItem;
use rv_unit::spelling_named;
use rv_word::Spelling;
use std::alloc::Global;

/// The names of the functions.
fn functions_of(alloc: Global, units: &[CodeUnit]) -> Result<Places, Memory>
    ensures { IfOk result (λ known. (name : List ℕ) → knows known name ≡ spec.is_function units.now name) }
{
    let mut known = Places::new(alloc);
    for unit in units {
        known.put(alloc, unit.name.bytes(), 0)?;
    }
    Ok(known)
}

/// Puts a name behind others where it is not known.
fn put_name(
    alloc: Global,
    name: &[u8],
    known: &mut Places,
    names: &mut Items<Name>,
) -> Result<(), Memory>
    ensures { OnOk result (Takes known.old names.old known.new names.new (name.now ∷ [])) }
{
    if known.place_of(name).is_some() {
        return Ok(());
    }
    known.put(alloc, name, 0)?;
    names.push(Name::of(alloc, name)?)
}

/// Whether a line with this name names a symbol.
fn names_symbol(name: &[u8]) -> bool
    ensures { result ≡ spec.names_symbol (names.spelling_named name.now) }
{
    matches!(spelling_named(name), Some(Spelling::Far { .. }))
}

/// Puts the symbol of an item behind others, where it has one that is not known.
fn put_item(
    alloc: Global,
    item: &CodeItem,
    known: &mut Places,
    names: &mut Items<Name>,
) -> Result<(), Memory>
    ensures { OnOk result (Takes known.old names.old known.new names.new (spec.item_symbols item.now)) }
{
    match item {
        CodeItem::Label { .. } => Ok(()),
        CodeItem::Code { line } => {
            if names_symbol(line.name.bytes()) {
                put_name(alloc, line.target.bytes(), known, names)
            } else {
                Ok(())
            }
        }
    }
}

/// Puts the symbols of a function's items behind others.
fn put_items(
    alloc: Global,
    items: &[CodeItem],
    known: &mut Places,
    names: &mut Items<Name>,
) -> Result<(), Memory>
    ensures { OnOk result (Takes known.old names.old known.new names.new (flat_map spec.item_symbols items.now)) }
{
    for item in items {
        put_item(alloc, item, known, names)?;
    }
    Ok(())
}

/// The symbols that lines name and that are no function, in the order of their first lines.
pub(crate) fn outside_names(alloc: Global, units: &[CodeUnit]) -> Result<Items<Name>, Memory>
    ensures { IfOk result (λ names. names ≡ spec.outside_names units.now) }
{
    let mut known = functions_of(alloc, units)?;
    let mut names = Items::new(alloc);
    for unit in units {
        put_items(alloc, unit.items.as_slice(), &mut known, &mut names)?;
    }
    Ok(names)
}

/// The addresses of outside symbols.
pub(crate) fn outside_of(alloc: Global, names: &[Name]) -> Result<Symbols, Memory>
    ensures { IfOk result (λ outside. outside ≡ spec.outside_from spec.first_outside names.now) }
{
    let mut outside = Items::new(alloc);
    let mut address: u64 = 2_097_152;
    for name in names {
        let name = name.copy(alloc)?;
        outside.push(SymbolAt { name, address })?;
        address = address.checked_add(4096).ok_or(Memory)?;
    }
    Ok(outside)
}
