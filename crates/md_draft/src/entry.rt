//! Reads a form from its tree, as far as its own text tells.
ghost use Rattle.std.specs.Prelude.{◌≡◌, IfOk};
ghost use Rattle.std.specs.Option.{option_copied};
ghost use Rattle.md_pattern.specs.Reason.{both, judged_map, judged_with, IsSmallest};
ghost use Rattle.md_draft.specs.Draft as spec;
ghost use Rattle.md_draft.specs.Head.{head_named};
ghost use Rattle.md_draft.specs.Reasons.{Applies};

use crate::compact::old_draft;
use crate::condition::{condition_in, split_condition_in, statements_in};
use crate::draft::{Defined, Draft, DraftEntry, Matched, Printed, Replacement};
use crate::head::{FormHead, RegisterClass};
use crate::layout::{is_whole, layout_of, part_at};
use crate::output::{block_in, output_in};
use crate::pattern::{patterns_in, sequence_in};
use crate::text::{attributes_in, class_in, default_in, test_in, values_in};
use c_cond::{Cond, Prep};
use lisp_read::{Tree, atom, items, string};
use md_compact::Block;
use md_pattern::{Judged, Patterns, Reason, both};
use name_places::Constants;
use plain_data::{Items, Memory};
use pred_expr::Test;
use rtx_tree::Name;
use std::alloc::Global;
use text_words::same;

// ---- the parts of a form, several at a time

#[tactic(auto, unfolding(crate::specs::Draft::matched_in))]
fn matched_in(
    alloc: Global,
    constants: &Constants,
    values: &[Name],
    head: FormHead,
    items: &[Tree],
) -> Result<Judged<Matched>, Memory>
    ensures { IfOk result (λ matched.
        matched ≡ spec.matched_in constants.now values.now head items.now) }
{
    let places = layout_of(head);
    let patterns = patterns_in(alloc, constants, head, part_at(items, places.patterns))?;
    let condition = condition_in(alloc, constants, values, part_at(items, places.condition))?;
    match both(patterns, condition) {
        Ok((patterns, condition)) => Ok(Ok(Matched {
            patterns,
            condition,
        })),
        Err(reason) => Ok(Err(reason)),
    }
}

fn made_by(
    split_condition: Judged<Cond>,
    sequence: Judged<Patterns>,
    statements: Judged<Prep>,
) -> Judged<Replacement>
    ensures { result ≡ spec.made_by split_condition sequence statements }
{
    match both(split_condition, both(sequence, statements)) {
        Ok((split_condition, (sequence, statements))) => Ok(Replacement {
            split_condition,
            sequence,
            statements,
        }),
        Err(reason) => Err(reason),
    }
}

#[tactic(auto, unfolding(crate::specs::Draft::replacement_in))]
fn replacement_in(
    alloc: Global,
    constants: &Constants,
    values: &[Name],
    head: FormHead,
    items: &[Tree],
) -> Result<Judged<Replacement>, Memory>
    ensures { IfOk result (λ replacement. replacement ≡ spec.replacement_in constants.now values.now head items.now) }
{
    let places = layout_of(head);
    let insn = part_at(items, places.condition);
    let split = part_at(items, places.split_condition);
    let split_condition = split_condition_in(alloc, constants, values, insn, split)?;
    let sequence = sequence_in(alloc, constants, part_at(items, places.sequence))?;
    let statements = statements_in(alloc, constants, part_at(items, places.statements))?;
    Ok(made_by(split_condition, sequence, statements))
}

#[tactic(auto, unfolding(crate::specs::Draft::printed_in))]
fn printed_in(
    alloc: Global,
    block: Option<&Block>,
    head: FormHead,
    items: &[Tree],
) -> Result<Judged<Printed>, Memory>
    ensures { IfOk result (λ printed.
        printed ≡ spec.printed_in (option_copied block.entry) head items.now) }
{
    let places = layout_of(head);
    let output = output_in(alloc, part_at(items, places.output), block)?;
    let attributes = attributes_in(alloc, part_at(items, places.attributes))?;
    match both(output, attributes) {
        Ok((output, attributes)) => Ok(Ok(Printed { output, attributes })),
        Err(reason) => Ok(Err(reason)),
    }
}

fn test_and_class(
    alloc: Global,
    constants: &Constants,
    head: FormHead,
    items: &[Tree],
) -> Result<Judged<(Option<Test>, Option<RegisterClass>)>, Memory>
    ensures { IfOk result (λ parts. parts ≡ both (spec.test_in constants.now head items.now)
        (spec.class_in head items.now)) }
{
    let places = layout_of(head);
    let test = test_in(alloc, constants, part_at(items, places.test))?;
    Ok(both(test, class_in(part_at(items, places.class))))
}

fn values_and_default(
    alloc: Global,
    head: FormHead,
    items: &[Tree],
) -> Result<Judged<(Items<Name>, Name)>, Memory>
    ensures { IfOk result (λ parts. parts ≡ both (spec.values_in head items.now)
        (spec.default_in head items.now)) }
{
    let places = layout_of(head);
    let values = values_in(alloc, part_at(items, places.values))?;
    Ok(both(values, default_in(alloc, part_at(items, places.default))?))
}

fn defined_by(
    test_and_class: Judged<(Option<Test>, Option<RegisterClass>)>,
    values_and_default: Judged<(Items<Name>, Name)>,
) -> Judged<Defined>
    ensures { result ≡ judged_with spec.defined_with test_and_class values_and_default }
{
    match both(test_and_class, values_and_default) {
        Ok(((test, class), (values, default))) => Ok(Defined {
            test,
            class,
            values,
            default,
        }),
        Err(reason) => Err(reason),
    }
}

#[tactic(auto, unfolding(crate::specs::Draft::defined_in))]
fn defined_in(
    alloc: Global,
    constants: &Constants,
    head: FormHead,
    items: &[Tree],
) -> Result<Judged<Defined>, Memory>
    ensures { IfOk result (λ defined. defined ≡ spec.defined_in constants.now head items.now) }
{
    let test_and_class = test_and_class(alloc, constants, head, items)?;
    let values_and_default = values_and_default(alloc, head, items)?;
    Ok(defined_by(test_and_class, values_and_default))
}

fn matched_and_replacement(
    alloc: Global,
    constants: &Constants,
    values: &[Name],
    head: FormHead,
    items: &[Tree],
) -> Result<Judged<(Matched, Replacement)>, Memory>
    ensures { IfOk result (λ parts.
        parts ≡ both (spec.matched_in constants.now values.now head items.now)
        (spec.replacement_in constants.now values.now head items.now)) }
{
    let matched = matched_in(alloc, constants, values, head, items)?;
    let replacement = replacement_in(alloc, constants, values, head, items)?;
    Ok(both(matched, replacement))
}

fn printed_and_defined(
    alloc: Global,
    block: Option<&Block>,
    constants: &Constants,
    head: FormHead,
    items: &[Tree],
) -> Result<Judged<(Printed, Defined)>, Memory>
    ensures { IfOk result (λ parts.
        parts ≡ both (spec.printed_in (option_copied block.entry) head items.now)
        (spec.defined_in constants.now head items.now)) }
{
    let printed = printed_in(alloc, block, head, items)?;
    let defined = defined_in(alloc, constants, head, items)?;
    Ok(both(printed, defined))
}

fn together(
    head: FormHead,
    matched_and_replacement: Judged<(Matched, Replacement)>,
    printed_and_defined: Judged<(Printed, Defined)>,
) -> Judged<Draft>
    ensures { result ≡ judged_with (spec.draft_with head) matched_and_replacement printed_and_defined }
{
    match both(matched_and_replacement, printed_and_defined) {
        Ok(((matched, replacement), (printed, defined))) => Ok(Draft {
            head,
            matched,
            replacement,
            printed,
            defined,
        }),
        Err(reason) => Err(reason),
    }
}

/// What the parts of a form tell, with the block that stands in the place of its output.
#[tactic(auto, unfolding(crate::specs::Draft::parts_draft))]
fn parts_draft(
    alloc: Global,
    block: Option<&Block>,
    constants: &Constants,
    values: &[Name],
    head: FormHead,
    items: &[Tree],
) -> Result<Judged<Draft>, Memory>
    ensures { IfOk result (λ draft. draft ≡
        spec.parts_draft (option_copied block.entry) constants.now values.now head items.now) }
{
    let matched_and_replacement = matched_and_replacement(alloc, constants, values, head, items)?;
    let printed_and_defined = printed_and_defined(alloc, block, constants, head, items)?;
    Ok(together(head, matched_and_replacement, printed_and_defined))
}

/// A draft without the block of its form.
fn without(
    alloc: Global,
    block: Option<&Block>,
    draft: Judged<Draft>,
) -> Result<Judged<Draft>, Memory>
    ensures { IfOk result (λ whole.
        whole ≡ judged_map (spec.without (option_copied block.entry)) draft) }
{
    match (block, draft) {
        (Some(block), Ok(draft)) => Ok(Ok(old_draft(alloc, block, draft)?)),
        (_, draft) => Ok(draft),
    }
}

/// The draft of a form with a head and as many trees as the head takes.
#[tactic(auto, unfolding(crate::specs::Draft::whole_draft))]
fn whole_draft(
    alloc: Global,
    constants: &Constants,
    values: &[Name],
    head: FormHead,
    items: &[Tree],
) -> Result<Judged<Draft>, Memory>
    ensures { IfOk result (λ draft.
        draft ≡ spec.whole_draft constants.now values.now head items.now) }
{
    let block = block_in(alloc, part_at(items, layout_of(head).output))?;
    let draft = parts_draft(alloc, block.as_ref(), constants, values, head, items)?;
    without(alloc, block.as_ref(), draft)
}

/// The draft of a form with a head.
#[tactic(auto, unfolding(crate::specs::Draft::draft_in))]
fn draft_in(
    alloc: Global,
    constants: &Constants,
    values: &[Name],
    head: FormHead,
    items: &[Tree],
) -> Result<Judged<Draft>, Memory>
    ensures { IfOk result (λ draft. draft ≡ spec.draft_in constants.now values.now head items.now) }
{
    if is_whole(&layout_of(head), items) {
        whole_draft(alloc, constants, values, head, items)
    } else {
        Ok(Err(Reason::Parts))
    }
}

fn draft_by(
    alloc: Global,
    constants: &Constants,
    values: &[Name],
    head: &[u8],
    items: &[Tree],
) -> Result<Judged<Draft>, Memory>
    ensures { IfOk result (λ draft.
        draft ≡ spec.draft_by constants.now values.now (head_named head.now) items.now) }
{
    match FormHead::named(head) {
        Some(head) => draft_in(alloc, constants, values, head, items),
        None => Ok(Err(Reason::Head)),
    }
}

// ---- entries

fn some_text(text: Option<&Name>) -> Option<&Name>
    ensures { option_copied result ≡ spec.some_text (option_copied text.entry) }
{
    match text {
        Some(text) if text.bytes().len() > 0 => Some(text),
        _ => None,
    }
}

/// A form's name: its second part where that is a string of one byte or more.
fn name_in(items: &[Tree]) -> Option<&Name>
    ensures { option_copied result ≡ spec.name_in items.now }
{
    match items {
        [_, name, ..] => some_text(string(name)),
        _ => None,
    }
}

fn name_of(alloc: Global, items: &[Tree]) -> Result<Option<Name>, Memory>
    ensures { IfOk result (λ name. name ≡ spec.name_in items.now) }
{
    match name_in(items) {
        Some(name) => Ok(Some(name.copy(alloc)?)),
        None => Ok(None),
    }
}

/// The atom at the head.
fn head_in(items: &[Tree]) -> Option<&Name>
    ensures { option_copied result ≡ spec.head_in items.now }
{
    match items {
        [head, ..] => atom(head),
        [] => None,
    }
}

/// Whether a form with this head describes a pipeline.
fn is_of_pipeline(head: &[u8]) -> bool
    ensures { result ≡ spec.is_of_pipeline head.now }
{
    same(head, b"define_cpu_unit") || same(head, b"define_insn_reservation")
}

/// A copy of a form that describes a pipeline.
#[tactic(auto, unfolding(crate::specs::Draft::timing_of))]
fn timing_of(alloc: Global, head: &[u8], tree: &Tree) -> Result<Option<Tree>, Memory>
    ensures { IfOk result (λ timing. timing ≡ spec.timing_of head.now tree.now) }
{
    if is_of_pipeline(head) {
        Ok(Some(tree.copy(alloc)?))
    } else {
        Ok(None)
    }
}

/// An entry without a draft.
fn headless(alloc: Global, items: &[Tree]) -> Result<DraftEntry, Memory>
    ensures { IfOk result (λ entry. entry ≡ spec.headless items.now) }
{
    Ok(DraftEntry {
        head: Name::of(alloc, b"-")?,
        name: name_of(alloc, items)?,
        draft: Err(Reason::Head),
        timing: None,
    })
}

#[tactic(auto, unfolding(crate::specs::Draft::headed))]
fn headed(
    alloc: Global,
    constants: &Constants,
    values: &[Name],
    head: &Name,
    tree: &Tree,
) -> Result<DraftEntry, Memory>
    ensures { IfOk result (λ entry.
        entry ≡ spec.headed constants.now values.now head.now tree.now) }
{
    let items = items(tree);
    let head_text = head.copy(alloc)?;
    let name = name_of(alloc, items)?;
    let draft = draft_by(alloc, constants, values, head.bytes(), items)?;
    Ok(DraftEntry {
        head: head_text,
        name,
        draft,
        timing: timing_of(alloc, head.bytes(), tree)?,
    })
}

/// What a tree says as a form, by itself: its head, its name, and its parts or the smallest reason
/// that its own text gives. A tree that is no list with an atom at its head has the head `-` and no
/// parts. Of a form that describes a pipeline it has a copy. `values` are the conditions that hold
/// besides the form's own. The names in conditions and statements that are constants are read with
/// `constants`.
#[tactic(auto, using(crate::proofs::Reasons::of_entry))]
pub fn entry_of(
    alloc: Global,
    constants: &Constants,
    values: &[Name],
    tree: &Tree,
) -> Result<DraftEntry, Memory>
    ensures entry { IfOk result (λ entry. entry ≡ spec.entry_of constants.now values.now tree.now) }

    // A form that has parts has no reason, and any other has the smallest of its reasons.
    ensures reasons { IsSmallest (Applies constants.now values.now tree.now)
        (spec.entry_of constants.now values.now tree.now).draft }
{
    match head_in(items(tree)) {
        Some(head) => headed(alloc, constants, values, head, tree),
        None => headless(alloc, items(tree)),
    }
}
