//! The forms of a description.
ghost use Rattle.std.specs.Prelude.{◌≡◌, IfOk, map};
ghost use Rattle.md_iter.specs.declared.substitution.Instance.{Instance};
ghost use Rattle.md_tables.specs.md_pattern.Reason.{IsSmallest};
ghost use Rattle.md_forms.specs.Reasons as reasons;
ghost use Rattle.md_forms.specs.Forms as spec;

use crate::checks::form_of;
use crate::form::{Entry, Forms};
use md_iter::Instance;
use md_tables::{DraftEntry, Tables, entry_of, tables_of};
use name_places::Constants;
use plain_data::{Items, Memory};
use std::alloc::Global;

fn draft_entry(alloc: Global, constants: &Constants, form: &Instance) -> Result<DraftEntry, Memory>
    ensures { IfOk result (λ entry. entry ≡ spec.draft_entry constants.now form.now) }
{
    entry_of(alloc, constants, form.conditions.as_slice(), &form.tree)
}

fn entries_of(
    alloc: Global,
    constants: &Constants,
    forms: &[Instance],
) -> Result<Items<DraftEntry>, Memory>
    ensures { IfOk result (λ entries. entries ≡ map (spec.draft_entry constants.now) forms.now) }
{
    let mut entries = Items::new(alloc);
    for form in forms {
        entries.push(draft_entry(alloc, constants, form)?)?;
    }
    Ok(entries)
}

fn finished(alloc: Global, tables: &Tables, entry: DraftEntry) -> Result<Entry, Memory>
    ensures { IfOk result (λ form. form ≡ spec.finished tables.now entry) }
{
    let DraftEntry {
        head,
        name,
        draft,
        timing,
    } = entry;
    let form = match draft {
        Ok(draft) => form_of(alloc, tables, draft)?,
        Err(reason) => Err(reason),
    };
    Ok(Entry {
        head,
        name,
        form,
        timing,
    })
}

fn all_finished(alloc: Global, tables: &Tables, entries: Items<DraftEntry>) -> Result<Forms, Memory>
    ensures { IfOk result (λ forms. forms ≡ map (spec.finished tables.now) entries) }
{
    let mut forms = Items::new(alloc);
    for entry in entries.into_vec() {
        forms.push(finished(alloc, tables, entry)?)?;
    }
    Ok(forms)
}

/// The forms of a description, in the order of its expanded trees, each with its head, its name,
/// and what it says or the smallest reason that applies to it.
///
/// A predicate is accepted where its own parts are in order and each predicate that it names is a
/// built-in one or accepted in its turn, so none that reaches itself is; a constraint where its
/// predicates are, an attribute where its default is one of its values. Of a name the first
/// definition counts, also where it is set aside. The names in conditions and statements that are
/// constants are read with `constants`.
#[tactic(auto, using(crate::proofs::Checked::smallest))]
pub fn forms_of(alloc: Global, forms: &[Instance], constants: &Constants) -> Result<Forms, Memory>
    ensures forms { IfOk result (λ all. all ≡ spec.forms_of constants.now forms.now) }

    // A form that is taken has no reason, and any other has the smallest of its reasons.
    ensures reasons { (form : Instance) →
        IsSmallest (reasons.Applies constants.now (reasons.tables_in constants.now forms.now) form)
        (reasons.judged_in constants.now forms.now form) }
{
    let entries = entries_of(alloc, constants, forms)?;
    match tables_of(alloc, entries.as_slice()) {
        Ok(tables) => {
            let all = all_finished(alloc, &tables, entries);
            drop(tables);
            all
        }
        Err(memory) => {
            drop(entries);
            Err(memory)
        }
    }
}
