//! What the forms of a description define for one another.
ghost use Rattle.std.specs.Prelude.{◌≡◌, IfOk, map};
ghost use Rattle.std.specs.Option.{option_copied};
ghost use Rattle.md_tables.specs.Predicates.{is_known};
ghost use Rattle.md_tables.specs.Tables as spec;

use crate::names::predicates_named;
use crate::predicates::{accepted_within, all_known};
use md_draft::{Draft, DraftEntry, FormHead};
use md_pattern::Judged;
use md_text::ConstraintNames;
use name_places::{NameTable, Named};
use plain_data::{Items, Memory};
use rtx_tree::Name;
use std::alloc::Global;
use text_words::same;

/// A definition of a predicate.
#[derive(Drop)]
pub struct PredicateDraft {
    pub name: Name,
    /// Whether its own parts are in order.
    pub whole: bool,
    /// The predicates that it names.
    pub uses: Items<Name>,
}

impl Named for PredicateDraft {
    ghost name = { λ d. d.name };

    fn name(&self) -> &[u8] {
        self.name.bytes()
    }
}

/// A definition of a constraint.
#[derive(Drop)]
pub struct ConstraintDraft {
    pub name: Name,
    pub accepted: bool,
}

impl Named for ConstraintDraft {
    ghost name = { λ d. d.name };

    fn name(&self) -> &[u8] {
        self.name.bytes()
    }
}

/// A definition of an attribute. One of its values is found at once.
#[derive(Drop)]
pub struct AttributeDraft {
    pub name: Name,
    pub accepted: bool,
    pub values: NameTable<Name>,
}

impl Named for AttributeDraft {
    ghost name = { λ d. d.name };

    fn name(&self) -> &[u8] {
        self.name.bytes()
    }
}

/// What the forms of a description define for one another.
#[derive(Drop)]
pub struct Tables {
    pub predicates: NameTable<PredicateDraft>,
    /// Which of the predicates are accepted.
    pub accepted: Items<bool>,
    /// The names of the constraints, the accepted and the others.
    pub constraint_names: ConstraintNames,
    pub constraints: NameTable<ConstraintDraft>,
    pub attributes: NameTable<AttributeDraft>,
}

// ---- what a head defines

/// Whether a head defines a predicate.
pub fn defines_predicate(head: Option<FormHead>) -> bool
    ensures { result ≡ spec.defines_predicate head }
{
    matches!(head, Some(FormHead::Predicate | FormHead::SpecialPredicate))
}

/// Whether a head defines a constraint.
pub fn defines_constraint(head: Option<FormHead>) -> bool
    ensures { result ≡ spec.defines_constraint head }
{
    matches!(
        head,
        Some(FormHead::Constraint | FormHead::RegisterConstraint | FormHead::MemoryConstraint)
    )
}

/// Whether a head defines an attribute.
pub fn defines_attribute(head: Option<FormHead>) -> bool
    ensures { result ≡ spec.defines_attribute head }
{
    matches!(head, Some(FormHead::Attr))
}

/// The name of the predicate that an entry defines.
fn predicate_name(entry: &DraftEntry) -> Option<&Name>
    ensures { option_copied result ≡ spec.defined spec.defines_predicate entry.now }
{
    if defines_predicate(FormHead::named(entry.head.bytes())) {
        entry.name.as_ref()
    } else {
        None
    }
}

fn constraint_name(entry: &DraftEntry) -> Option<&Name>
    ensures { option_copied result ≡ spec.defined spec.defines_constraint entry.now }
{
    if defines_constraint(FormHead::named(entry.head.bytes())) {
        entry.name.as_ref()
    } else {
        None
    }
}

fn attribute_name(entry: &DraftEntry) -> Option<&Name>
    ensures { option_copied result ≡ spec.defined spec.defines_attribute entry.now }
{
    if defines_attribute(FormHead::named(entry.head.bytes())) {
        entry.name.as_ref()
    } else {
        None
    }
}

// ---- predicates

fn predicate_draft(
    alloc: Global,
    name: &Name,
    draft: &Judged<Draft>,
) -> Result<PredicateDraft, Memory>
    ensures { IfOk result (λ d. d ≡ spec.predicate_draft name.now draft.now) }
{
    let name = name.copy(alloc)?;
    match draft {
        Ok(draft) => Ok(PredicateDraft {
            name,
            whole: true,
            uses: predicates_named(alloc, draft)?,
        }),
        Err(_) => Ok(PredicateDraft {
            name,
            whole: false,
            uses: Items::new(alloc),
        }),
    }
}

fn predicate_of(alloc: Global, entry: &DraftEntry) -> Result<Option<PredicateDraft>, Memory>
    ensures { IfOk result (λ d. d ≡ spec.predicate_of entry.now) }
{
    match predicate_name(entry) {
        Some(name) => Ok(Some(predicate_draft(alloc, name, &entry.draft)?)),
        None => Ok(None),
    }
}

#[tactic(auto, using(crate::proofs::Lists::filter_map_found, crate::proofs::Lists::filter_map_passed), unfolding(crate::specs::Tables::predicates_of))]
fn predicates_of(alloc: Global, entries: &[DraftEntry]) -> Result<Items<PredicateDraft>, Memory>
    ensures { IfOk result (λ ds. ds ≡ spec.predicates_of entries.now) }
{
    let mut found = Items::new(alloc);
    for entry in entries {
        if let Some(d) = predicate_of(alloc, entry)? {
            found.push(d)?;
        }
    }
    Ok(found)
}

// ---- constraints

/// Whether a constraint's own parts are in order, and its predicates known.
fn is_sound(
    alloc: Global,
    predicates: &NameTable<PredicateDraft>,
    accepted: &[bool],
    draft: &Judged<Draft>,
) -> Result<bool, Memory>
    ensures { IfOk result (λ sound.
        sound ≡ spec.is_sound (is_known predicates.now accepted.now) draft.now) }
{
    match draft {
        Ok(draft) => {
            let names = predicates_named(alloc, draft)?;
            Ok(all_known(predicates, accepted, names.as_slice()))
        }
        Err(_) => Ok(false),
    }
}

fn constraint_of(
    alloc: Global,
    predicates: &NameTable<PredicateDraft>,
    accepted: &[bool],
    entry: &DraftEntry,
) -> Result<Option<ConstraintDraft>, Memory>
    ensures { IfOk result (λ d. d ≡ spec.constraint_of
        (is_known predicates.now accepted.now) entry.now) }
{
    match constraint_name(entry) {
        Some(name) => Ok(Some(ConstraintDraft {
            name: name.copy(alloc)?,
            accepted: is_sound(alloc, predicates, accepted, &entry.draft)?,
        })),
        None => Ok(None),
    }
}

#[tactic(auto, using(crate::proofs::Lists::filter_map_found, crate::proofs::Lists::filter_map_passed), unfolding(crate::specs::Tables::constraints_of))]
fn constraints_of(
    alloc: Global,
    predicates: &NameTable<PredicateDraft>,
    accepted: &[bool],
    entries: &[DraftEntry],
) -> Result<Items<ConstraintDraft>, Memory>
    ensures { IfOk result (λ ds. ds ≡ spec.constraints_of
        (is_known predicates.now accepted.now) entries.now) }
{
    let mut found = Items::new(alloc);
    for entry in entries {
        if let Some(d) = constraint_of(alloc, predicates, accepted, entry)? {
            found.push(d)?;
        }
    }
    Ok(found)
}

fn names_of(alloc: Global, constraints: &[ConstraintDraft]) -> Result<Items<Name>, Memory>
    ensures { IfOk result (λ names. names ≡ map (λ k. k.name) constraints.now) }
{
    let mut names = Items::new(alloc);
    for constraint in constraints {
        names.push(constraint.name.copy(alloc)?)?;
    }
    Ok(names)
}

/// Whether the first constraint of a name is accepted.
pub fn is_constraint(constraints: &NameTable<ConstraintDraft>, name: &[u8]) -> bool
    ensures { result ≡ spec.is_constraint constraints.now name.now }
{
    match constraints.first(name) {
        Some(constraint) => constraint.accepted,
        None => false,
    }
}

// ---- attributes

/// Whether a name is one of some.
pub fn is_among(names: &[Name], name: &[u8]) -> bool
    ensures { result ≡ spec.is_among names.now name.now }
{
    names.iter().any(|other| same(other.bytes(), name))
}

/// A copy of names.
pub fn copied_names(alloc: Global, names: &[Name]) -> Result<Items<Name>, Memory>
    ensures { IfOk result (λ all. all ≡ names.now) }
{
    let mut all = Items::new(alloc);
    for name in names {
        all.push(name.copy(alloc)?)?;
    }
    Ok(all)
}

fn attribute_draft(
    alloc: Global,
    name: &Name,
    draft: &Judged<Draft>,
) -> Result<AttributeDraft, Memory>
    ensures { IfOk result (λ d. d ≡ spec.attribute_draft name.now draft.now) }
{
    let name = name.copy(alloc)?;
    match draft {
        Ok(draft) => Ok(AttributeDraft {
            name,
            accepted: is_among(
                draft.defined.values.as_slice(),
                draft.defined.default.bytes(),
            ),
            values: NameTable::of(alloc, copied_names(alloc, draft.defined.values.as_slice())?)?,
        }),
        Err(_) => Ok(AttributeDraft {
            name,
            accepted: false,
            values: NameTable::of(alloc, Items::new(alloc))?,
        }),
    }
}

fn attribute_of(alloc: Global, entry: &DraftEntry) -> Result<Option<AttributeDraft>, Memory>
    ensures { IfOk result (λ d. d ≡ spec.attribute_of entry.now) }
{
    match attribute_name(entry) {
        Some(name) => Ok(Some(attribute_draft(alloc, name, &entry.draft)?)),
        None => Ok(None),
    }
}

#[tactic(auto, using(crate::proofs::Lists::filter_map_found, crate::proofs::Lists::filter_map_passed), unfolding(crate::specs::Tables::attributes_of))]
fn attributes_of(alloc: Global, entries: &[DraftEntry]) -> Result<Items<AttributeDraft>, Memory>
    ensures { IfOk result (λ ds. ds ≡ spec.attributes_of entries.now) }
{
    let mut found = Items::new(alloc);
    for entry in entries {
        if let Some(d) = attribute_of(alloc, entry)? {
            found.push(d)?;
        }
    }
    Ok(found)
}

// ---- all of them

fn predicate_table(
    alloc: Global,
    entries: &[DraftEntry],
) -> Result<NameTable<PredicateDraft>, Memory>
    ensures { IfOk result (λ ds. ds ≡ spec.predicates_of entries.now) }
{
    NameTable::of(alloc, predicates_of(alloc, entries)?)
}

fn attribute_table(
    alloc: Global,
    entries: &[DraftEntry],
) -> Result<NameTable<AttributeDraft>, Memory>
    ensures { IfOk result (λ ds. ds ≡ spec.attributes_of entries.now) }
{
    NameTable::of(alloc, attributes_of(alloc, entries)?)
}

/// The names of the constraints, and the constraints.
fn constraint_table(
    alloc: Global,
    predicates: &NameTable<PredicateDraft>,
    accepted: &[bool],
    entries: &[DraftEntry],
) -> Result<(ConstraintNames, NameTable<ConstraintDraft>), Memory>
    ensures names { IfOk result (λ table. table.0 ≡ map (λ k. k.name)
        (spec.constraints_of (is_known predicates.now accepted.now) entries.now)) }
    ensures constraints { IfOk result (λ table. table.1 ≡ spec.constraints_of
        (is_known predicates.now accepted.now) entries.now) }
{
    let constraints = constraints_of(alloc, predicates, accepted, entries)?;
    let names = ConstraintNames::of(alloc, names_of(alloc, constraints.as_slice())?)?;
    Ok((names, NameTable::of(alloc, constraints)?))
}

/// The constraints as above, and the attributes.
fn constraints_and_attributes(
    alloc: Global,
    predicates: &NameTable<PredicateDraft>,
    accepted: &[bool],
    entries: &[DraftEntry],
) -> Result<
    (
        ConstraintNames,
        NameTable<ConstraintDraft>,
        NameTable<AttributeDraft>,
    ),
    Memory,
>
    ensures names { IfOk result (λ table. table.0 ≡ map (λ k. k.name)
        (spec.constraints_of (is_known predicates.now accepted.now) entries.now)) }
    ensures constraints { IfOk result (λ table. table.1 ≡ spec.constraints_of
        (is_known predicates.now accepted.now) entries.now) }
    ensures attributes { IfOk result (λ table. table.2 ≡ spec.attributes_of entries.now) }
{
    let attributes = attribute_table(alloc, entries)?;
    let (names, constraints) = constraint_table(alloc, predicates, accepted, entries)?;
    Ok((names, constraints, attributes))
}

/// What the forms define, where it is known which of the predicates are accepted.
fn tables_with(
    alloc: Global,
    entries: &[DraftEntry],
    predicates: NameTable<PredicateDraft>,
    accepted: Items<bool>,
) -> Result<Tables, Memory>
    ensures { IfOk result (λ tables. tables ≡ spec.tables_with entries.now predicates accepted
        (spec.constraints_of (is_known predicates accepted) entries.now)) }
{
    match constraints_and_attributes(alloc, &predicates, accepted.as_slice(), entries) {
        Ok((constraint_names, constraints, attributes)) => Ok(Tables {
            predicates,
            accepted,
            constraint_names,
            constraints,
            attributes,
        }),
        Err(memory) => {
            drop(predicates);
            drop(accepted);
            Err(memory)
        }
    }
}

/// What the forms of a description define for one another.
#[tactic(auto, unfolding(crate::specs::Tables::tables_of))]
pub fn tables_of(alloc: Global, entries: &[DraftEntry]) -> Result<Tables, Memory>
    ensures { IfOk result (λ tables. tables ≡ spec.tables_of entries.now) }
{
    let predicates = predicate_table(alloc, entries)?;
    match accepted_within(alloc, &predicates, entries.len()) {
        Ok(accepted) => tables_with(alloc, entries, predicates, accepted),
        Err(memory) => {
            drop(predicates);
            Err(memory)
        }
    }
}
