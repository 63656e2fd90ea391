//! The first tree in a form that something is said of.
ghost use Rattle.std.specs.Prelude.{◌≡◌, ◌≤◌, IfOk, IfSome, length};
ghost use Rattle.std.specs.Option.{option_copied};
ghost use Rattle.lisp_read.specs.Shape as shape;
ghost use Rattle.lisp_read.specs.Expression.{inside_of};
ghost use Rattle.md_pattern.specs.Pattern.{pattern_of};
ghost use Rattle.pred_expr.specs.Test.{test_of};
ghost use Rattle.md_draft.specs.Draft.{head_in};
ghost use Rattle.c_stops.proofs.Stops.{stop};
ghost use Rattle.lint_about.specs.Within as spec;

use crate::about::About;
use c_stops::{Grammar, stop_of};
use lisp_read::{Tree, atom, is_word, items, string};
use md_pattern::{Judged, Reason, pattern_of};
use name_places::Constants;
use plain_data::Memory;
use pred_expr::test_of;
use rtx_tree::{Name, Place};
use std::alloc::Global;
use text_words::same;

/// What is looked for.
#[derive(Clone, Copy)]
pub enum Sought {
    /// A list that has this reason as a pattern.
    Pattern(Reason),
    /// A list that has this reason as a test.
    Test(Reason),
    /// A condition of a test that is outside the grammar.
    Condition,
}

/// The place of a tree's first byte.
pub fn place_of(tree: &Tree) -> Place
    ensures { result ≡ shape.place_of tree.now }
{
    match tree {
        Tree::Atom { place, .. }
        | Tree::Str { place, .. }
        | Tree::Block { place, .. }
        | Tree::List { place, .. }
        | Tree::Vector { place, .. } => *place,
    }
}

/// The trees of a list or a vector.
fn inside(tree: &Tree) -> &[Tree]
    ensures { result.now ≡ inside_of tree.now }
{
    match tree {
        Tree::List { items, .. } | Tree::Vector { items, .. } => items.as_slice(),
        _ => &[],
    }
}

// ---- a text

/// The place of an atom, or of what stands in quotes or braces, that is a text.
fn placed(text: &[u8], tree: &Tree) -> Option<Place>
    ensures { result ≡ spec.placed text.now tree.now }
{
    match tree {
        Tree::Atom { place, text: own }
        | Tree::Str { place, text: own }
        | Tree::Block { place, text: own } => {
            if same(own.bytes(), text) {
                Some(*place)
            } else {
                None
            }
        }
        _ => None,
    }
}

#[cycle(placed)]
#[tactic(auto, using(crate::proofs::WithinLaws::placed_inside))]
fn place_within(text: &[u8], tree: &Tree) -> Option<Place>
    ensures { result ≡ spec.place_within text.now tree.now }
{
    let found = place_among(text, inside(tree));
    if found.is_some() {
        return found;
    }
    placed(text, tree)
}

#[cycle(placed)]
fn place_among(text: &[u8], trees: &[Tree]) -> Option<Place>
    ensures { result ≡ spec.first_found (spec.place_within text.now) trees.now }
{
    for tree in trees {
        let found = place_within(text, tree);
        if found.is_some() {
            return found;
        }
    }
    None
}

/// The place of the first text in a tree that is this one; the tree's own where there is none.
pub fn place_in(tree: &Tree, text: &[u8]) -> Place
    ensures { result ≡ spec.place_in tree.now text.now }
{
    match place_within(text, tree) {
        Some(place) => place,
        None => place_of(tree),
    }
}

// ---- a tree with a reason

/// Whether what was read has a reason.
fn has<T>(read: &Judged<T>, reason: Reason) -> bool
    ensures { result ≡ spec.has reason read.now }
{
    match read {
        Ok(_) => false,
        Err(other) => other.number() == reason.number(),
    }
}

fn head_of(tree: &Tree) -> Option<&Name>
    ensures { option_copied result ≡ head_in (shape.items_of tree.now) }
{
    match items(tree) {
        [head, ..] => atom(head),
        [] => None,
    }
}

/// A list by the word at its head, if it is one that was found.
pub fn by_word(alloc: Global, tree: &Tree, found: bool) -> Result<Option<About>, Memory>
    ensures { IfOk result (λ about. about ≡ spec.by_word tree.now found) }
{
    match head_of(tree) {
        Some(word) if found => Ok(Some(About::told(alloc, place_of(tree), word.bytes())?)),
        _ => Ok(None),
    }
}

fn pattern_has(
    alloc: Global,
    constants: &Constants,
    reason: Reason,
    tree: &Tree,
) -> Result<bool, Memory>
    ensures { IfOk result (λ found. found ≡ spec.has reason (pattern_of constants.now tree.now)) }
{
    let pattern = pattern_of(alloc, tree, constants)?;
    Ok(has(&pattern, reason))
}

fn test_has(
    alloc: Global,
    constants: &Constants,
    reason: Reason,
    tree: &Tree,
) -> Result<bool, Memory>
    ensures { IfOk result (λ found. found ≡ spec.has reason (test_of constants.now tree.now)) }
{
    let test = test_of(alloc, tree, constants)?;
    Ok(has(&test, reason))
}

// ---- a text of C that is none

/// Where a text stops being one of a grammar, if it does.
#[tactic(auto, using(c_stops::proofs::Stops::of_grammar, crate::proofs::StopLaws::stops_within))]
pub fn stop_in(
    alloc: Global,
    constants: &Constants,
    grammar: Grammar,
    text: &[u8],
) -> Result<Option<usize>, Memory>
    ensures value { IfOk result (λ offset. offset ≡ (stop grammar constants.now text.now).value) }
    ensures within { IfOk result (λ offset. IfSome offset (λ n. n ≤ length text.now)) }
{
    let offset = stop_of(alloc, constants, grammar, text)?;
    Ok(offset)
}

/// The line on which a quoted text stops being one of a grammar, if it does.
pub fn stops_in(
    alloc: Global,
    constants: &Constants,
    grammar: Grammar,
    quote: &Tree,
    text: &[u8],
) -> Result<Option<About>, Memory>
    ensures { IfOk result (λ about.
        about ≡ spec.stops_in constants.now grammar quote.now text.now) }
{
    match stop_in(alloc, constants, grammar, text)? {
        Some(offset) => Ok(Some(About::line_of(alloc, place_of(quote), text, offset)?)),
        None => Ok(None),
    }
}

/// The same of a string.
pub fn string_stops(
    alloc: Global,
    constants: &Constants,
    grammar: Grammar,
    quote: &Tree,
) -> Result<Option<About>, Memory>
    ensures { IfOk result (λ about. about ≡ spec.string_stops constants.now grammar quote.now) }
{
    match string(quote) {
        Some(text) => stops_in(alloc, constants, grammar, quote, text.bytes()),
        None => Ok(None),
    }
}

/// The line on which the condition of a test is outside, if these are the trees of one.
fn test_stops(alloc: Global, constants: &Constants, items: &[Tree]) -> Result<Option<About>, Memory>
    ensures { IfOk result (λ about. about ≡ spec.test_stops constants.now items.now) }
{
    match items {
        [head, text] if is_word(head, b"match_test") => {
            string_stops(alloc, constants, Grammar::Test, text)
        }
        _ => Ok(None),
    }
}

// ---- the first tree

/// What is told of a tree by itself, if it is what is sought.
fn found_at(
    alloc: Global,
    constants: &Constants,
    sought: Sought,
    tree: &Tree,
) -> Result<Option<About>, Memory>
    ensures { IfOk result (λ about. about ≡ spec.found_at constants.now sought tree.now) }
{
    match sought {
        Sought::Pattern(reason) => {
            let found = pattern_has(alloc, constants, reason, tree)?;
            by_word(alloc, tree, found)
        }
        Sought::Test(reason) => {
            let found = test_has(alloc, constants, reason, tree)?;
            by_word(alloc, tree, found)
        }
        Sought::Condition => test_stops(alloc, constants, items(tree)),
    }
}

/// The first tree within another, or this itself, that is sought; one within another comes before
/// it.
#[cycle(first)]
#[tactic(auto, using(crate::proofs::WithinLaws::found_inside))]
pub fn first_in(
    alloc: Global,
    constants: &Constants,
    sought: Sought,
    tree: &Tree,
) -> Result<Option<About>, Memory>
    ensures { IfOk result (λ about. about ≡ spec.first_in constants.now sought tree.now) }
{
    let found = first_among(alloc, constants, sought, inside(tree))?;
    if found.is_some() {
        return Ok(found);
    }
    found_at(alloc, constants, sought, tree)
}

#[cycle(first)]
fn first_among(
    alloc: Global,
    constants: &Constants,
    sought: Sought,
    trees: &[Tree],
) -> Result<Option<About>, Memory>
    ensures { IfOk result (λ about.
        about ≡ spec.first_found (spec.first_in constants.now sought) trees.now) }
{
    for tree in trees {
        let found = first_in(alloc, constants, sought, tree)?;
        if found.is_some() {
            return Ok(found);
        }
    }
    Ok(None)
}
