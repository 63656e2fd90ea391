//! What `<..>` stands for under a choice of values.
ghost use Rattle.std.specs.Prelude.{◌≡◌, ◌++◌, OnOk, map, option_map};
ghost use Rattle.std.specs.Char.{to_ascii_lowercase, to_ascii_uppercase};
ghost use Rattle.std.specs.Option.{option_copied};
ghost use Rattle.md_iter.specs.Attribute as spec;
ghost use Rattle.md_iter.specs.Choice.{chosen_of};

use crate::choice::Choice;
use crate::definition::{DefinitionKind, Definitions, Entry, IteratorAttribute};
use crate::kinded::KindedItems;
use name_places::NameTable;
use plain_data::Memory;
use rtx_tree::Name;
use text_words::{cut, same};

/// A text that stands for `<..>`.
#[derive(Clone, Copy)]
pub enum Filling<'a> {
    /// Bytes as they are written.
    Written(&'a [u8]),
    /// Bytes that are put in capitals.
    Capitals(&'a [u8]),
    /// Bytes that are put in small letters.
    Small(&'a [u8]),
}

fn push_capitals(bytes: &[u8], out: &mut Vec<u8>) -> Result<(), Memory>
    ensures { OnOk result (out.new.items ≡ out.old.items ++ map to_ascii_uppercase bytes.now) }
{
    for byte in bytes {
        out.push(byte.to_ascii_uppercase())?;
    }
    Ok(())
}

fn push_small(bytes: &[u8], out: &mut Vec<u8>) -> Result<(), Memory>
    ensures { OnOk result (out.new.items ≡ out.old.items ++ map to_ascii_lowercase bytes.now) }
{
    for byte in bytes {
        out.push(byte.to_ascii_lowercase())?;
    }
    Ok(())
}

impl<'a> Filling<'a> {
    /// Appends the text.
    pub fn push(self, out: &mut Vec<u8>) -> Result<(), Memory>
        ensures { OnOk result (out.new.items ≡ out.old.items ++ spec.filled_with self.entry) }
    {
        match self {
            Filling::Written(bytes) => {
                out.extend_from_slice(bytes)?;
                Ok(())
            }
            Filling::Capitals(bytes) => push_capitals(bytes, out),
            Filling::Small(bytes) => push_small(bytes, out),
        }
    }
}

fn cased<'a>(name: &[u8], capitals: &[u8], small: &[u8], value: &'a [u8]) -> Option<Filling<'a>>
    ensures { option_map spec.filled_with result ≡
        spec.cased name.now capitals.now small.now value.entry.now }
{
    if same(name, capitals) {
        Some(Filling::Capitals(value))
    } else if same(name, small) {
        Some(Filling::Small(value))
    } else {
        None
    }
}

/// The attributes that modes and codes have without a definition.
fn built_in<'a>(kind: DefinitionKind, name: &[u8], value: &'a [u8]) -> Option<Filling<'a>>
    ensures { option_map spec.filled_with result ≡ spec.built_in kind name.now value.entry.now }
{
    match kind {
        DefinitionKind::Mode => cased(name, b"MODE", b"mode", value),
        DefinitionKind::Code => cased(name, b"CODE", b"code", value),
        DefinitionKind::Int => None,
    }
}

/// The text of the first entry for a value.
fn entry_for<'a>(entries: &'a NameTable<Entry>, value: &[u8]) -> Option<&'a Name>
    ensures { option_copied result ≡ spec.entry_for value.now entries.entry.now }
{
    match entries.first(value) {
        Some(entry) => Some(&entry.text),
        None => None,
    }
}

/// The first attribute of a kind and a name.
fn attribute_named<'a>(
    attributes: &'a KindedItems<IteratorAttribute>,
    kind: DefinitionKind,
    name: &[u8],
) -> Option<&'a IteratorAttribute>
    ensures { option_copied result ≡ spec.attribute_named kind name.now attributes.entry.now }
{
    attributes.first(kind, name)
}

fn defined<'a>(
    definitions: &'a Definitions,
    kind: DefinitionKind,
    name: &[u8],
    value: &[u8],
) -> Option<Filling<'a>>
    ensures { option_map spec.filled_with result ≡
        spec.defined definitions.entry.now kind name.now value.now }
{
    let attribute = attribute_named(&definitions.attributes, kind, name)?;
    let text = entry_for(&attribute.entries, value)?;
    Some(Filling::Written(text.bytes()))
}

/// What an attribute is at the value of one iterator.
fn at_value<'a>(
    definitions: &'a Definitions,
    name: &[u8],
    choice: &Choice<'a>,
) -> Option<Filling<'a>>
    ensures { option_map spec.filled_with result ≡
        spec.at_value definitions.entry.now name.now (chosen_of choice.now) }
{
    let kind = choice.iterator.kind;
    let value = choice.value.name.bytes();
    match built_in(kind, name, value) {
        Some(filling) => Some(filling),
        None => defined(definitions, kind, name, value),
    }
}

/// `<NAME>`: the attribute of the first iterator that has it.
fn of_any<'a>(
    definitions: &'a Definitions,
    name: &[u8],
    choices: &[Choice<'a>],
) -> Option<Filling<'a>>
    ensures { option_map spec.filled_with result ≡
        spec.of_any definitions.entry.now name.now (map chosen_of choices.now) }
{
    for choice in choices {
        let found = at_value(definitions, name, choice);
        if found.is_some() {
            return found;
        }
    }
    None
}

/// `<ITERATOR:NAME>`: the attribute of this iterator.
fn of_one<'a>(
    definitions: &'a Definitions,
    iterator: &[u8],
    name: &[u8],
    choices: &[Choice<'a>],
) -> Option<Filling<'a>>
    ensures { option_map spec.filled_with result ≡
        spec.of_one definitions.entry.now iterator.now name.now (map chosen_of choices.now) }
{
    for choice in choices {
        if same(choice.iterator.name.bytes(), iterator) {
            let found = at_value(definitions, name, choice);
            if found.is_some() {
                return found;
            }
        }
    }
    None
}

/// What stands for `<..>`, if anything does.
pub fn filling_of<'a>(
    definitions: &'a Definitions,
    choices: &[Choice<'a>],
    text: &[u8],
) -> Option<Filling<'a>>
    ensures { option_map spec.filled_with result ≡
        spec.filling definitions.entry.now (map chosen_of choices.now) text.now }
{
    match cut(text, b':') {
        Some((iterator, name)) => of_one(definitions, iterator, name, choices),
        None => of_any(definitions, text, choices),
    }
}
