//! What a reason is about that a form's own text gives.
ghost use Rattle.std.specs.Prelude.{◌≡◌, IfOk, is_some};
ghost use Rattle.std.specs.Option.{option_copied};
ghost use Rattle.md_draft.specs.Conditions.{written};
ghost use Rattle.md_draft.specs.Parts.{attribute_in};
ghost use Rattle.lint_about.specs.Own as spec;

use crate::about::About;
use crate::layout::{part_at, parts_of};
use crate::sought::{Sought, by_word, first_in, place_of, stop_in, stops_in, string_stops};
use c_stops::Grammar;
use lisp_read::{Tree, is_word, items, string, vector};
use md_iter::Instance;
use md_pattern::Reason;
use name_places::Constants;
use plain_data::Memory;
use rtx_tree::Name;
use std::alloc::Global;
use text_words::behind_blanks;

// ---- a part of the wrong kind, a code, a mode

/// The first tree of a part that is sought.
fn sought_in(
    alloc: Global,
    constants: &Constants,
    sought: Sought,
    part: Option<&Tree>,
) -> Result<Option<About>, Memory>
    ensures { IfOk result (λ about.
        about ≡ spec.sought_in constants.now sought (option_copied part.entry)) }
{
    match part {
        Some(tree) => first_in(alloc, constants, sought, tree),
        None => Ok(None),
    }
}

/// The first tree of the patterns, of the new sequence or of the test that has a reason.
#[tactic(auto, unfolding(crate::specs::Own::tree_with))]
fn tree_with(
    alloc: Global,
    constants: &Constants,
    form: &Tree,
    reason: Reason,
) -> Result<Option<About>, Memory>
    ensures { IfOk result (λ about. about ≡ spec.tree_with constants.now form.now reason) }
{
    let parts = parts_of(form);
    let pattern = Sought::Pattern(reason);
    let patterns = sought_in(alloc, constants, pattern, part_at(form, parts.patterns))?;
    if patterns.is_some() {
        return Ok(patterns);
    }
    let sequence = sought_in(alloc, constants, pattern, part_at(form, parts.sequence))?;
    if sequence.is_some() {
        return Ok(sequence);
    }
    sought_in(
        alloc,
        constants,
        Sought::Test(reason),
        part_at(form, parts.test),
    )
}

/// Whether a tree gives an attribute values.
fn is_attribute(tree: &Tree) -> bool
    ensures { result ≡ is_some (attribute_in tree.now) }
{
    match items(tree) {
        [head, name, values] => {
            is_word(head, b"set_attr") && string(name).is_some() && string(values).is_some()
        }
        _ => false,
    }
}

/// The first element of the attributes that gives none values.
fn odd_attribute(alloc: Global, attributes: &Tree) -> Option<About>
    ensures { result ≡ spec.odd_attribute attributes.now }
{
    let elements = vector(attributes);
    for element in elements {
        if !is_attribute(element) {
            return Some(About::whole(alloc, element));
        }
    }
    None
}

/// A block of C code.
fn if_block(alloc: Global, tree: &Tree) -> Option<About>
    ensures { result ≡ spec.if_block tree.now }
{
    match tree {
        Tree::Block { .. } => Some(About::whole(alloc, tree)),
        _ => None,
    }
}

/// The C code that a form ends with.
fn code_behind(alloc: Global, form: &Tree) -> Option<About>
    ensures { result ≡ spec.code_behind form.now }
{
    let items = items(form);
    match items.get(items.len().saturating_sub(1)) {
        Some(last) => if_block(alloc, last),
        None => None,
    }
}

/// The C code behind a definition, or else what it defines.
fn odd_definition(alloc: Global, form: &Tree, definition: &Tree) -> Result<About, Memory>
    ensures { IfOk result (λ about. about ≡ spec.odd_definition form.now definition.now) }
{
    if let Some(about) = code_behind(alloc, form) {
        return Ok(about);
    }
    match by_word(alloc, definition, true)? {
        Some(about) => Ok(about),
        None => Ok(About::whole(alloc, definition)),
    }
}

/// The attribute or the definition that is of the wrong kind.
fn odd_behind(alloc: Global, form: &Tree) -> Result<Option<About>, Memory>
    ensures { IfOk result (λ about. about ≡ spec.odd_behind form.now) }
{
    let parts = parts_of(form);
    if let Some(attributes) = part_at(form, parts.attributes) {
        let found = odd_attribute(alloc, attributes);
        if found.is_some() {
            return Ok(found);
        }
    }
    match part_at(form, parts.definition) {
        Some(definition) => Ok(Some(odd_definition(alloc, form, definition)?)),
        None => Ok(None),
    }
}

/// What is missing, too much or of the wrong kind.
#[tactic(auto, unfolding(crate::specs::Own::odd_part))]
fn odd_part(alloc: Global, constants: &Constants, form: &Tree) -> Result<Option<About>, Memory>
    ensures { IfOk result (λ about. about ≡ spec.odd_part constants.now form.now) }
{
    let found = tree_with(alloc, constants, form, Reason::Parts)?;
    if found.is_some() {
        return Ok(found);
    }
    odd_behind(alloc, form)
}

// ---- a condition, statements

/// The condition of a split behind what joins it to another.
fn behind_joint(text: &[u8]) -> &[u8]
    ensures { result.now ≡ spec.behind_joint text.entry.now }
{
    match behind_blanks(text) {
        [b'&', b'&', rest @ ..] => rest,
        _ => text,
    }
}

/// The line on which the text of a split's condition is outside, if it is.
fn joined_stops(
    alloc: Global,
    constants: &Constants,
    quote: &Tree,
    text: &[u8],
) -> Result<Option<About>, Memory>
    ensures { IfOk result (λ about. about ≡ spec.joined_stops constants.now quote.now text.now) }
{
    let rest = behind_joint(text);
    let front = text.len().saturating_sub(rest.len());
    match stop_in(alloc, constants, Grammar::Condition, rest)? {
        Some(offset) => Ok(Some(About::line_of(alloc, place_of(quote), text, front + offset)?)),
        None => Ok(None),
    }
}

/// The same of a string.
fn split_stops(alloc: Global, constants: &Constants, quote: &Tree) -> Result<Option<About>, Memory>
    ensures { IfOk result (λ about. about ≡ spec.split_stops constants.now quote.now) }
{
    match string(quote) {
        Some(text) => joined_stops(alloc, constants, quote, text.bytes()),
        None => Ok(None),
    }
}

/// Whether a text is no condition.
fn is_odd(alloc: Global, constants: &Constants, text: &[u8]) -> Result<bool, Memory>
    ensures { IfOk result (λ odd. odd ≡ spec.is_odd constants.now text.now) }
{
    Ok(stop_in(alloc, constants, Grammar::Condition, text)?.is_some())
}

/// The first condition of a value of an iterator that is none.
fn odd_value(
    alloc: Global,
    constants: &Constants,
    form: &Tree,
    values: &[Name],
) -> Result<Option<About>, Memory>
    ensures { IfOk result (λ about.
        about ≡ spec.odd_value constants.now form.now values.now) }
{
    for text in values {
        if is_odd(alloc, constants, text.bytes())? {
            return Ok(Some(About::shown(alloc, place_of(form), text.bytes())?));
        }
    }
    Ok(None)
}

/// The first condition that is written in a form and outside.
#[tactic(auto, unfolding(crate::specs::Own::written_condition))]
fn written_condition(
    alloc: Global,
    constants: &Constants,
    form: &Tree,
) -> Result<Option<About>, Memory>
    ensures { IfOk result (λ about. about ≡ spec.written_condition constants.now form.now) }
{
    let parts = parts_of(form);
    if let Some(quote) = part_at(form, parts.condition) {
        let found = string_stops(alloc, constants, Grammar::Condition, quote)?;
        if found.is_some() {
            return Ok(found);
        }
    }
    if let Some(quote) = part_at(form, parts.split_condition) {
        let found = split_stops(alloc, constants, quote)?;
        if found.is_some() {
            return Ok(found);
        }
    }
    sought_in(
        alloc,
        constants,
        Sought::Condition,
        part_at(form, parts.test),
    )
}

/// The first condition that is outside.
#[tactic(auto, unfolding(crate::specs::Own::odd_condition))]
fn odd_condition(
    alloc: Global,
    constants: &Constants,
    form: &Instance,
) -> Result<Option<About>, Memory>
    ensures { IfOk result (λ about. about ≡ spec.odd_condition constants.now form.now) }
{
    let found = written_condition(alloc, constants, &form.tree)?;
    if found.is_some() {
        return Ok(found);
    }
    odd_value(alloc, constants, &form.tree, form.conditions.as_slice())
}

/// What stands in quotes or braces.
fn written(tree: &Tree) -> Option<&Name>
    ensures { option_copied result ≡ written tree.now }
{
    match tree {
        Tree::Str { text, .. } | Tree::Block { text, .. } => Some(text),
        _ => None,
    }
}

fn statements_stop(
    alloc: Global,
    constants: &Constants,
    quote: &Tree,
) -> Result<Option<About>, Memory>
    ensures { IfOk result (λ about. about ≡ spec.statements_stop constants.now quote.now) }
{
    match written(quote) {
        Some(text) => stops_in(alloc, constants, Grammar::Statements, quote, text.bytes()),
        None => Ok(None),
    }
}

/// The preparation statements, from where they are outside.
#[tactic(auto, unfolding(crate::specs::Own::odd_statements))]
fn odd_statements(
    alloc: Global,
    constants: &Constants,
    form: &Tree,
) -> Result<Option<About>, Memory>
    ensures { IfOk result (λ about. about ≡ spec.odd_statements constants.now form.now) }
{
    match part_at(form, parts_of(form).statements) {
        Some(quote) => statements_stop(alloc, constants, quote),
        None => Ok(None),
    }
}

// ---- by the reason

/// The output as a whole.
fn output_of(alloc: Global, form: &Tree) -> Option<About>
    ensures { result ≡ spec.output_of form.now }
{
    let output = part_at(form, parts_of(form).output)?;
    Some(About::whole(alloc, output))
}

/// What a reason is about, if there is more to tell than the form as a whole.
fn found_by(
    alloc: Global,
    constants: &Constants,
    form: &Instance,
    head: &[u8],
    reason: Reason,
) -> Result<Option<About>, Memory>
    ensures { IfOk result (λ about.
        about ≡ spec.found_by constants.now form.now head.now reason) }
{
    match reason {
        Reason::Head => Ok(Some(About::told(alloc, place_of(&form.tree), head)?)),
        Reason::Parts => odd_part(alloc, constants, &form.tree),
        Reason::Code | Reason::Mode => tree_with(alloc, constants, &form.tree, reason),
        Reason::Condition => odd_condition(alloc, constants, form),
        Reason::Statements => odd_statements(alloc, constants, &form.tree),
        _ => Ok(output_of(alloc, &form.tree)),
    }
}

/// What a reason of a form with a head is about, by the form's own text: the head; the first tree of
/// its parts that has the reason; the line on which a condition or the statements are outside; the
/// output; or the form as a whole.
#[tactic(auto, unfolding(crate::specs::Own::own_about))]
pub fn own_about(
    alloc: Global,
    constants: &Constants,
    form: &Instance,
    head: &[u8],
    reason: Reason,
) -> Result<About, Memory>
    ensures { IfOk result (λ about.
        about ≡ spec.own_about constants.now form.now head.now reason) }
{
    match found_by(alloc, constants, form, head, reason)? {
        Some(about) => Ok(about),
        None => Ok(About::whole(alloc, &form.tree)),
    }
}
