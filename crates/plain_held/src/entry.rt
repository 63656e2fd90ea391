//! Entries that are written out as rows.
ghost use Rattle.std.specs.Prelude.{◌≡◌, ◌↔◌, IfOk, IsTrue, option_map};
ghost use Rattle.md_forms.specs.md_tables.md_draft.Head.{head_name};
ghost use Rattle.plain_held.specs.Rows as spec;

use crate::form::is_form;
use crate::row::Row;
use md_forms::Entry;
use md_text::ConstraintNames;
use plain_data::Memory;
use rtx_tree::Name;
use std::alloc::Global;

fn is_named(name: &Option<Name>, wanted: Option<&'static str>) -> bool
    ensures { IsTrue result ↔ (name.now ≡ option_map (λ text. text.now) wanted.entry) }
{
    match (name, wanted) {
        (Some(name), Some(text)) => name.bytes() == text.as_bytes(),
        (None, None) => true,
        _ => false,
    }
}

fn is_headed(entry: &Entry, row: &Row) -> bool
    ensures { IsTrue result ↔
        ((entry.now.head ≡ head_name row.now.head) ×
        (entry.now.name ≡ option_map (λ text. text.now) row.now.name)) }
{
    entry.head.bytes() == row.head.name().as_bytes() && is_named(&entry.name, row.name)
}

/// Whether an entry is that of a row.
pub fn is_entry(
    alloc: Global,
    names: &ConstraintNames,
    entry: &Entry,
    row: &Row,
) -> Result<bool, Memory>
    requires whole { IsTrue (spec.is_whole_row row.now) }
    requires names { names.now ≡ spec.names }
    ensures { IfOk result (λ same. IsTrue same ↔ (entry.now ≡ spec.entry_of row.now)) }
{
    match (&entry.form, &entry.timing) {
        (Ok(form), None) if is_headed(entry, row) => is_form(alloc, names, form, row),
        _ => Ok(false),
    }
}
