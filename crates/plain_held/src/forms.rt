//! Whether the forms of a description are the plain forms.
ghost use Rattle.std.specs.Prelude.{◌≡◌, ◌↔◌, ◌++◌, IfOk, IsTrue, map, true};
ghost use Rattle.std.specs.List.{list_all};
ghost use Rattle.plain_forms.specs.Forms.{plain_forms};
ghost use Rattle.plain_held.specs.Rows as spec;
ghost use Rattle.plain_held.specs.Parts.{forms_in};
ghost use Rattle.plain_held.specs.machine.Fronts.{IsBehind};

use crate::entry::is_entry;
use crate::operands::names_of;
use crate::part::{Part, all_parts};
use crate::row::Row;
use md_desc::Description;
use md_forms::Entry;
use md_text::ConstraintNames;
use plain_data::Memory;
use std::alloc::Global;

/// Whether entries are those of some rows, each as that at its place.
#[tactic(auto, using(crate::proofs::Same::same_lists))]
fn are_entries(
    alloc: Global,
    names: &ConstraintNames,
    entries: &[Entry],
    rows: &[Row],
) -> Result<bool, Memory>
    requires whole { list_all spec.is_whole_row rows.now ≡ true }
    requires names { names.now ≡ spec.names }
    ensures { IfOk result (λ same. IsTrue same ↔ (entries.now ≡ map spec.entry_of rows.now)) }
{
    if entries.len() != rows.len() {
        return Ok(false);
    }
    for i in 0..entries.len() {
        if !is_entry(alloc, names, &entries[i], &rows[i])? {
            return Ok(false);
        }
    }
    Ok(true)
}

/// The entries behind those of a part, where these stand in front.
fn behind<'a>(
    alloc: Global,
    names: &ConstraintNames,
    entries: &'a [Entry],
    part: Part,
) -> Result<Option<&'a [Entry]>, Memory>
    requires { names.now ≡ spec.names }
    ensures { IfOk result (λ rest. IsBehind (forms_in part) entries.entry.now rest) }
{
    let rows = part.rows();
    if entries.len() < rows.len() {
        return Ok(None);
    }
    let (front, rest) = entries.split_at(rows.len());
    if are_entries(alloc, names, front, rows)? {
        Ok(Some(rest))
    } else {
        Ok(None)
    }
}

/// Whether entries are the plain forms.
fn are_plain(alloc: Global, names: &ConstraintNames, entries: &[Entry]) -> Result<bool, Memory>
    requires { names.now ≡ spec.names }
    ensures { IfOk result (λ are. IsTrue are ↔ (entries.now ≡ plain_forms)) }
{
    let mut rest = entries;
    for part in all_parts() {
        match behind(alloc, names, rest, *part)? {
            Some(more) => rest = more,
            None => return Ok(false),
        }
    }
    Ok(rest.is_empty())
}

/// Whether the forms of a description are the plain forms: each of these, as what it says, in their
/// order, and no other.
///
/// # Errors
///
/// `Memory` where memory ran out.
pub fn has_plain_forms(alloc: Global, description: &Description) -> Result<bool, Memory>
    ensures { IfOk result (λ has. IsTrue has ↔ (description.now ≡ plain_forms)) }
{
    let names = names_of(alloc)?;
    are_plain(alloc, &names, description.forms().as_slice())
}
