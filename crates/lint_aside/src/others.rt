//! What a reason is about that other forms give: a name, or a constraint.
ghost use Rattle.std.specs.Prelude.{◌≡◌, IfOk};
ghost use Rattle.std.specs.List.{find, list_all};
ghost use Rattle.std.specs.Option.{option_copied};
ghost use Rattle.lint_about.specs.Within.{first_found};
ghost use Rattle.md_forms.specs.Checks.{is_value as may_be, is_attr};
ghost use Rattle.md_forms.specs.Forms.{draft_entry};
ghost use Rattle.lint_aside.specs.Others as spec;

use lint_about::{About, own_about, place_in};
use md_forms::{Attribute, FormHead, Judged, Reason};
use md_iter::Instance;
use md_pattern::OperandText;
use md_tables::{
    Alternative, AttributeDraft, Constraint, Draft, DraftEntry, Member, Tables, all_known,
    constraint_of, entry_of, is_constraint, predicates_named,
};
use name_places::Constants;
use plain_data::Memory;
use rtx_tree::{Name, Place};
use std::alloc::Global;
use std::slice;
use text_words::same;

/// A text of the form, where it stands first.
fn text_told(alloc: Global, form: &Instance, text: &Name) -> Result<About, Memory>
    ensures { IfOk result (λ about. about ≡ spec.text_told form.now.tree text.now) }
{
    About::told(alloc, place_in(&form.tree, text.bytes()), text.bytes())
}

// ---- a predicate

fn is_unknown(tables: &Tables, name: &Name) -> bool
    ensures { result ≡ spec.is_unknown tables.now name.now }
{
    !all_known(
        &tables.predicates,
        tables.accepted.as_slice(),
        slice::from_ref(name),
    )
}

/// The first of some names that isn't that of a predicate which is known.
fn first_unknown<'a>(tables: &Tables, names: &'a [Name]) -> Option<&'a Name>
    ensures { option_copied result ≡ find (spec.is_unknown tables.now) names.entry.now }
{
    for name in names {
        if is_unknown(tables, name) {
            return Some(name);
        }
    }
    None
}

/// The first predicate that the form names and that isn't known, or is set aside.
#[tactic(auto, unfolding(crate::specs::Others::unknown_predicate))]
fn unknown_predicate(
    alloc: Global,
    tables: &Tables,
    form: &Instance,
    draft: &Draft,
) -> Result<Option<About>, Memory>
    ensures { IfOk result (λ about.
        about ≡ spec.unknown_predicate tables.now form.now.tree draft.now) }
{
    let names = predicates_named(alloc, draft)?;
    match first_unknown(tables, names.as_slice()) {
        Some(name) => Ok(Some(text_told(alloc, form, name)?)),
        None => Ok(None),
    }
}

// ---- a constraint

/// The name of a constraint that is set aside.
fn aside_member<'a>(tables: &Tables, member: &'a Member) -> Option<&'a Name>
    ensures { option_copied result ≡ spec.aside_member tables.now member.entry.now }
{
    match member {
        Member::Defined(name) if !is_constraint(&tables.constraints, name.bytes()) => Some(name),
        _ => None,
    }
}

fn aside_among<'a>(tables: &Tables, members: &'a [Member]) -> Option<&'a Name>
    ensures { option_copied result ≡ first_found (spec.aside_member tables.now) members.entry.now }
{
    for member in members {
        let found = aside_member(tables, member);
        if found.is_some() {
            return found;
        }
    }
    None
}

fn aside_in<'a>(tables: &Tables, alternatives: &'a [Alternative]) -> Option<&'a Name>
    ensures { option_copied result ≡ first_found (spec.aside_in tables.now) alternatives.entry.now }
{
    for alternative in alternatives {
        let found = aside_among(tables, alternative.members.as_slice());
        if found.is_some() {
            return found;
        }
    }
    None
}

/// A constraint with something unknown in it, or the name in it that is set aside.
fn odd_constraint(
    alloc: Global,
    tables: &Tables,
    place: Place,
    text: &Name,
    constraint: &Option<Constraint>,
) -> Result<Option<About>, Memory>
    ensures { IfOk result (λ about.
        about ≡ spec.odd_constraint tables.now place text.now constraint.now) }
{
    let Some(alternatives) = constraint else {
        return Ok(Some(About::told(alloc, place, text.bytes())?));
    };
    match aside_in(tables, alternatives.as_slice()) {
        Some(name) => Ok(Some(About::told(alloc, place, name.bytes())?)),
        None => Ok(None),
    }
}

fn odd_text(
    alloc: Global,
    tables: &Tables,
    form: &Instance,
    text: &OperandText,
) -> Result<Option<About>, Memory>
    ensures { IfOk result (λ about. about ≡ spec.odd_text tables.now form.now.tree text.now) }
{
    let place = place_in(&form.tree, text.text.bytes());
    let constraint = constraint_of(alloc, text.text.bytes(), &tables.constraint_names)?;
    odd_constraint(alloc, tables, place, &text.text, &constraint)
}

fn odd_among(
    alloc: Global,
    tables: &Tables,
    form: &Instance,
    texts: &[OperandText],
) -> Result<Option<About>, Memory>
    ensures { IfOk result (λ about.
        about ≡ first_found (spec.odd_text tables.now form.now.tree) texts.now) }
{
    for text in texts {
        let found = odd_text(alloc, tables, form, text)?;
        if found.is_some() {
            return Ok(found);
        }
    }
    Ok(None)
}

/// The first constraint of the form with something unknown in it, or that is set aside.
#[tactic(auto, using(lint_about::proofs::WithinLaws::found_append), unfolding(crate::specs::Others::unknown_constraint))]
fn unknown_constraint(
    alloc: Global,
    tables: &Tables,
    form: &Instance,
    draft: &Draft,
) -> Result<Option<About>, Memory>
    ensures { IfOk result (λ about.
        about ≡ spec.unknown_constraint tables.now form.now.tree draft.now) }
{
    let matched = odd_among(alloc, tables, form, draft.matched.patterns.texts.as_slice())?;
    if matched.is_some() {
        return Ok(matched);
    }
    odd_among(
        alloc,
        tables,
        form,
        draft.replacement.sequence.texts.as_slice(),
    )
}

// ---- an attribute

/// Whether a value is one of an attribute's, or the star for its default.
#[tactic(auto, using(name_places::proofs::FirstNames::found_among))]
fn may_be(attribute: &AttributeDraft, value: &[u8]) -> bool
    ensures { result ≡ may_be attribute.now value.now }
{
    same(b"*", value) || attribute.values.place_of(value).is_some()
}

fn may_be_all(attribute: &AttributeDraft, values: &[Name]) -> bool
    ensures { result ≡ list_all (may_be attribute.now) values.now }
{
    values.iter().all(|value| may_be(attribute, value.bytes()))
}

/// Whether an attribute isn't known, is set aside, or has not all of the values that it is given.
fn is_odd(tables: &Tables, given: &Attribute) -> bool
    ensures { result ≡ spec.is_odd tables.now given.now }
{
    match tables.attributes.first(given.name.bytes()) {
        Some(attribute) => !(attribute.accepted && may_be_all(attribute, given.values.as_slice())),
        None => true,
    }
}

fn is_attr(head: FormHead) -> bool
    ensures { result ≡ is_attr head }
{
    matches!(head, FormHead::Attr)
}

/// The default of an attribute, or the first attribute of the form that isn't right.
#[tactic(auto, unfolding(crate::specs::Others::odd_attribute))]
fn odd_attribute(
    alloc: Global,
    tables: &Tables,
    form: &Instance,
    draft: &Draft,
) -> Result<Option<About>, Memory>
    ensures { IfOk result (λ about.
        about ≡ spec.odd_attribute tables.now form.now.tree draft.now) }
{
    if is_attr(draft.head) {
        return Ok(Some(text_told(alloc, form, &draft.defined.default)?));
    }
    for given in draft.printed.attributes.as_slice() {
        if is_odd(tables, given) {
            return Ok(Some(text_told(alloc, form, &given.name)?));
        }
    }
    Ok(None)
}

// ---- any reason

fn others_by(
    alloc: Global,
    tables: &Tables,
    form: &Instance,
    draft: &Draft,
    reason: Reason,
) -> Result<Option<About>, Memory>
    ensures { IfOk result (λ about.
        about ≡ spec.others_by tables.now form.now.tree draft.now reason) }
{
    match reason {
        Reason::Predicate => unknown_predicate(alloc, tables, form, draft),
        Reason::Constraint => unknown_constraint(alloc, tables, form, draft),
        Reason::Attribute => odd_attribute(alloc, tables, form, draft),
        _ => Ok(None),
    }
}

/// What a reason is about that the other forms give, where the form's own text is in order.
fn others_about(
    alloc: Global,
    tables: &Tables,
    form: &Instance,
    reason: Reason,
    draft: &Judged<Draft>,
) -> Result<Option<About>, Memory>
    ensures { IfOk result (λ about.
        about ≡ spec.others_about tables.now form.now.tree reason draft.now) }
{
    match draft {
        Ok(draft) => others_by(alloc, tables, form, draft, reason),
        Err(_) => Ok(None),
    }
}

fn about_by(
    alloc: Global,
    constants: &Constants,
    tables: &Tables,
    form: &Instance,
    reason: Reason,
    entry: &DraftEntry,
) -> Result<About, Memory>
    ensures { IfOk result (λ about.
        about ≡ spec.about_by constants.now tables.now form.now reason entry.now) }
{
    match others_about(alloc, tables, form, reason, &entry.draft)? {
        Some(about) => Ok(about),
        None => own_about(alloc, constants, form, entry.head.bytes(), reason),
    }
}

/// What the own text of a form says.
pub fn draft_of(alloc: Global, constants: &Constants, form: &Instance) -> Result<DraftEntry, Memory>
    ensures { IfOk result (λ entry. entry ≡ draft_entry constants.now form.now) }
{
    entry_of(alloc, constants, form.conditions.as_slice(), &form.tree)
}

/// What a reason of a form is about, by its own text and by what the forms of the description
/// define.
#[tactic(auto, unfolding(crate::specs::Others::about_of))]
pub fn about_of(
    alloc: Global,
    constants: &Constants,
    tables: &Tables,
    form: &Instance,
    reason: Reason,
) -> Result<About, Memory>
    ensures { IfOk result (λ about.
        about ≡ spec.about_of constants.now tables.now form.now reason) }
{
    let entry = draft_of(alloc, constants, form)?;
    about_by(alloc, constants, tables, form, reason, &entry)
}
