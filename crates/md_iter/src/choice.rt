//! The iterators that a form uses, and the choices of their values.
ghost use Rattle.std.specs.Prelude.{◌≡◌, ◌<◌, ◌-◌, ◌^◌, min, map, Some, OnOk, IfOk, slice_get};
ghost use Rattle.std.specs.List.{fold, list_any};
ghost use Rattle.std.specs.Option.{option_copied};
ghost use Rattle.md_iter.specs.Choice as spec;
ghost use Rattle.md_iter.specs.Choice.{chosen_of, lent};
ghost use Rattle.md_iter.specs.machine.Steps as steps;

use crate::definition::{DefinitionKind, FormIterator, Value};
use crate::kinded::KindedItems;
use lisp_read::Tree;
use plain_data::Memory;
use std::alloc::Global;
use text_words::{cut, same};

/// An iterator with the value that it has in a substitution.
#[derive(Clone, Copy)]
pub struct Choice<'a> {
    pub iterator: &'a FormIterator,
    pub value: &'a Value,
}

fn is_iterator(iterator: &FormIterator, kind: DefinitionKind, name: &[u8]) -> bool
    ensures { result ≡ spec.is_iterator kind name.now iterator.now }
{
    iterator.kind.same(kind) && same(iterator.name.bytes(), name)
}

/// The first iterator of a kind and a name.
fn iterator_named<'a>(
    iterators: &'a KindedItems<FormIterator>,
    kind: DefinitionKind,
    name: &[u8],
) -> Option<&'a FormIterator>
    ensures { option_copied result ≡ spec.iterator_named kind name.now iterators.entry.now }
{
    iterators.first(kind, name)
}

fn has(used: &[&FormIterator], kind: DefinitionKind, name: &[u8]) -> bool
    ensures { result ≡ list_any (spec.is_iterator kind name.now) (lent used.now) }
{
    for iterator in used {
        if is_iterator(iterator, kind, name) {
            return true;
        }
    }
    false
}

/// Adds an iterator, unless it is there.
fn add<'a>(
    iterator: Option<&'a FormIterator>,
    used: &mut Vec<&'a FormIterator>,
) -> Result<(), Memory>
    ensures { OnOk result (lent used.new.items ≡ spec.added (lent used.old.items)
        (option_copied iterator.entry)) }
{
    if let Some(iterator) = iterator {
        if !has(used.as_slice(), iterator.kind, iterator.name.bytes()) {
            used.push(iterator)?;
        }
    }
    Ok(())
}

/// Adds the iterators that an atom uses.
fn add_of_atom<'a>(
    iterators: &'a KindedItems<FormIterator>,
    is_head: bool,
    text: &[u8],
    used: &mut Vec<&'a FormIterator>,
) -> Result<(), Memory>
    ensures { OnOk result (lent used.new.items ≡ fold spec.added (lent used.old.items)
        (spec.used_by_atom iterators.entry.now is_head text.now)) }
{
    match cut(text, b':') {
        Some((code, mode)) => {
            if is_head {
                add(iterator_named(iterators, DefinitionKind::Code, code), used)?;
            }
            add(iterator_named(iterators, DefinitionKind::Mode, mode), used)
        }
        None if is_head => add(iterator_named(iterators, DefinitionKind::Code, text), used),
        None => add(iterator_named(iterators, DefinitionKind::Int, text), used),
    }
}

/// Adds the iterators that some trees use, of which the first may be the head of a list.
#[tactic(auto, using(crate::proofs::Uses::uses_next))]
#[cycle(uses)]
fn add_of_trees<'a>(
    iterators: &'a KindedItems<FormIterator>,
    trees: &[Tree],
    head_first: bool,
    used: &mut Vec<&'a FormIterator>,
) -> Result<(), Memory>
    ensures { OnOk result (lent used.new.items ≡ fold spec.added (lent used.old.items)
        (steps.uses_of iterators.entry.now trees.now head_first)) }
{
    let mut is_head = head_first;
    for tree in trees {
        add_of_tree(iterators, tree, is_head, used)?;
        is_head = false;
    }
    Ok(())
}

#[cycle(uses)]
fn add_of_tree<'a>(
    iterators: &'a KindedItems<FormIterator>,
    tree: &Tree,
    is_head: bool,
    used: &mut Vec<&'a FormIterator>,
) -> Result<(), Memory>
    ensures { OnOk result (lent used.new.items ≡ fold spec.added (lent used.old.items)
        (spec.uses iterators.entry.now tree.now is_head)) }
{
    match tree {
        Tree::Atom { text, .. } => add_of_atom(iterators, is_head, text.bytes(), used),
        Tree::Str { .. } | Tree::Block { .. } => Ok(()),
        Tree::List { items, .. } => add_of_trees(iterators, items.as_slice(), true, used),
        Tree::Vector { items, .. } => add_of_trees(iterators, items.as_slice(), false, used),
    }
}

/// The iterators that a form uses, each once, in the order of their first uses.
pub fn iterators_of<'a>(
    alloc: Global,
    iterators: &'a KindedItems<FormIterator>,
    form: &Tree,
) -> Result<Vec<&'a FormIterator>, Memory>
    ensures { IfOk result (λ used.
        lent used.items ≡ spec.iterators_of iterators.entry.now form.now) }
{
    let mut used = Vec::new(alloc);
    add_of_tree(iterators, form, false, &mut used)?;
    Ok(used)
}

/// How many choices of values there are, or the greatest `usize` where there are more.
#[tactic(auto, using(crate::proofs::Counts::count_next, crate::proofs::Counts::count_ends))]
pub fn choice_count(used: &[&FormIterator]) -> usize
    ensures { result ≡ min (spec.choice_count (lent used.now)) (2 ^ 64 - 1) }
{
    let mut count: usize = 1;
    for iterator in used {
        count = count.saturating_mul(iterator.values.len());
    }
    count
}

/// Choice `at` of all `count`.
#[tactic(auto, using(crate::proofs::Places::has_values, crate::proofs::Places::has_rest, crate::proofs::Places::within_values))]
pub fn choice_at<'a>(
    alloc: Global,
    used: &[&'a FormIterator],
    count: usize,
    at: usize,
) -> Result<Vec<Choice<'a>>, Memory>
    requires count { count ≡ spec.choice_count (lent used.now) }
    requires at { at < count }
    ensures { IfOk result (λ choices.
        slice_get (spec.choices (lent used.now)) at ≡ Some (map chosen_of choices.items)) }
{
    let mut choices = Vec::new(alloc);
    let mut block = count;
    let mut at = at;
    for iterator in used {
        block = block / iterator.values.len();
        choices.push(Choice {
            iterator: *iterator,
            value: iterator.values.item(at / block),
        })?;
        at = at % block;
    }
    Ok(choices)
}
