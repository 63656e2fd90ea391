//! The units that forms define.
ghost use Rattle.std.specs.Prelude.{◌≡◌, IfOk};
ghost use Rattle.std.specs.List.{list_any};
ghost use Rattle.std.specs.Str.{bytes_eq};
ghost use Rattle.md_dfa.specs.Units as spec;

use lisp_read::{is_word, items, string};
use md_forms::{Entry, copied_names};
use md_text::members_of;
use plain_data::{Items, Memory};
use rtx_tree::{MOST_UNITS, Name};
use std::alloc::Global;
use text_words::same;

/// The names of units that a form defines: `(define_cpu_unit "NAMES" "AUTOMATON")`.
#[tactic(auto, unfolding(crate::specs::Units::names_in))]
fn names_in(alloc: Global, form: &Entry) -> Result<Items<Name>, Memory>
    ensures { IfOk result (λ names. names ≡ spec.names_in form.now) }
{
    let Some(tree) = &form.timing else {
        return Ok(Items::new(alloc));
    };
    match items(tree) {
        [head, names, automaton] if is_word(head, b"define_cpu_unit") => {
            match (string(names), string(automaton)) {
                (Some(names), Some(_)) => members_of(alloc, names.bytes()),
                _ => Ok(Items::new(alloc)),
            }
        }
        _ => Ok(Items::new(alloc)),
    }
}

fn is_unit(units: &[Name], name: &[u8]) -> bool
    ensures { result ≡ list_any (λ unit. bytes_eq unit name.now) units.now }
{
    units.iter().any(|unit| same(unit.bytes(), name))
}

/// Some units with one of a name, unless there are too many.
#[tactic(auto, unfolding(crate::specs::Units::with_unit))]
fn with_unit(
    alloc: Global,
    mut units: Items<Name>,
    name: &Name,
) -> Result<Option<Items<Name>>, Memory>
    ensures { IfOk result (λ more. more ≡ spec.with_unit units name.now) }
{
    if is_unit(units.as_slice(), name.bytes()) {
        return Ok(Some(units));
    }
    if units.len() >= MOST_UNITS {
        return Ok(None);
    }
    units.push(name.copy(alloc)?)?;
    Ok(Some(units))
}

/// Some units with those of some names, unless there are too many.
#[tactic(auto, using(crate::proofs::UnitLaws::added_next, crate::proofs::UnitLaws::added_stops, crate::proofs::UnitLaws::added_ends))]
fn added(alloc: Global, units: &[Name], names: &[Name]) -> Result<Option<Items<Name>>, Memory>
    ensures { IfOk result (λ more. more ≡ spec.added units.now names.now) }
{
    let mut all = copied_names(alloc, units)?;
    for name in names {
        match with_unit(alloc, all, name)? {
            Some(more) => all = more,
            None => return Ok(None),
        }
    }
    Ok(Some(all))
}

/// Some units with those that a form defines, if all of them are few enough.
#[tactic(auto, unfolding(crate::specs::Units::with_form))]
fn with_form(alloc: Global, units: Items<Name>, form: &Entry) -> Result<Items<Name>, Memory>
    ensures { IfOk result (λ more. more ≡ spec.with_form units form.now) }
{
    let names = names_in(alloc, form)?;
    if names.is_empty() {
        return Ok(units);
    }
    match added(alloc, units.as_slice(), names.as_slice())? {
        Some(more) => Ok(more),
        None => Ok(units),
    }
}

/// The units that some forms define, in the order of their first names.
#[tactic(auto, using(crate::proofs::UnitLaws::form_next, crate::proofs::UnitLaws::form_ends))]
pub fn units_of(alloc: Global, forms: &[Entry]) -> Result<Items<Name>, Memory>
    ensures { IfOk result (λ units. units ≡ spec.units_of forms.now) }
{
    let mut units = Items::new(alloc);
    for form in forms {
        units = with_form(alloc, units, form)?;
    }
    Ok(units)
}
