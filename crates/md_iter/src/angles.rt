//! Texts with their `<..>` replaced.
ghost use Rattle.std.specs.Prelude.{◌≡◌, ◌++◌, IfOk, OnOk, map};
ghost use Rattle.md_iter.specs.Angles as spec;
ghost use Rattle.md_iter.specs.Attribute.{filling};
ghost use Rattle.md_iter.specs.Choice.{chosen_of};
ghost use Rattle.md_iter.specs.machine.Steps as steps;

use crate::attribute::filling_of;
use crate::choice::Choice;
use crate::definition::Definitions;
use plain_data::Memory;
use std::alloc::Global;

/// Appends what `<NAME>` is.
fn push_closed(
    definitions: &Definitions,
    choices: &[Choice],
    name: &[u8],
    out: &mut Vec<u8>,
) -> Result<(), Memory>
    ensures { OnOk result (out.new.items ≡ out.old.items ++ spec.closed
        (filling definitions.now (map chosen_of choices.now)) name.now) }
{
    match filling_of(definitions, choices, name) {
        Some(filling) => filling.push(out),
        None => {
            out.push(b'<')?;
            out.extend_from_slice(name)?;
            out.push(b'>')?;
            Ok(())
        }
    }
}

/// One byte more: appends what is written at it, and gives the name that is begun behind it.
fn step(
    alloc: Global,
    definitions: &Definitions,
    choices: &[Choice],
    name: Option<Vec<u8>>,
    byte: u8,
    out: &mut Vec<u8>,
) -> Result<Option<Vec<u8>>, Memory>
    ensures written { OnOk result (out.new.items ≡ out.old.items ++
        (spec.next (filling definitions.now (map chosen_of choices.now))
        (steps.begun name) byte).0) }
    ensures begun { IfOk result (λ new.
        steps.begun new ≡ (spec.next (filling definitions.now (map chosen_of choices.now))
        (steps.begun name) byte).1) }
{
    match (name, byte) {
        (None, b'<') => Ok(Some(Vec::new(alloc))),
        (None, _) => {
            out.push(byte)?;
            Ok(None)
        }
        (Some(name), b'>') => {
            push_closed(definitions, choices, name.as_slice(), out)?;
            Ok(None)
        }
        (Some(name), b'<') => {
            out.push(b'<')?;
            out.extend_from_slice(name.as_slice())?;
            Ok(Some(Vec::new(alloc)))
        }
        (Some(mut name), _) => {
            name.push(byte)?;
            Ok(Some(name))
        }
    }
}

/// Appends a name that nothing closed.
fn push_begun(name: &Option<Vec<u8>>, out: &mut Vec<u8>) -> Result<(), Memory>
    ensures { OnOk result (out.new.items ≡ out.old.items ++ spec.unclosed (steps.begun name.now)) }
{
    if let Some(name) = name {
        out.push(b'<')?;
        out.extend_from_slice(name.as_slice())?;
    }
    Ok(())
}

/// A text with its `<..>` replaced.
pub fn filled(
    alloc: Global,
    definitions: &Definitions,
    choices: &[Choice],
    text: &[u8],
) -> Result<Vec<u8>, Memory>
    ensures { IfOk result (λ out. out.items ≡ spec.filled
        (filling definitions.now (map chosen_of choices.now)) text.now) }
{
    let mut out = Vec::new(alloc);
    let mut name = None;
    for byte in text {
        name = step(alloc, definitions, choices, name, *byte, &mut out)?;
    }
    push_begun(&name, &mut out)?;
    Ok(out)
}
