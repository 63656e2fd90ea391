//! Which predicates of a description hold.
ghost use Rattle.std.specs.Prelude.{◌≡◌, ◌↔◌, ◌&&◌, ◌+◌, ◌<◌, ℕ, false, nat_lt, IfOk, IsTrue, option_and_then, slice_get, unwrap_or, map, length};
ghost use Rattle.std.specs.List.{list_all};
ghost use Rattle.md_tables.specs.Predicates as spec;
ghost use Rattle.md_tables.specs.machine.Depths.{is_below, below, IsNext};

use crate::tables::PredicateDraft;
use crate::walk::first_depths;
use md_operand::BuiltIn;
use name_places::NameTable;
use plain_data::{Items, Memory};
use rtx_tree::Name;
use std::alloc::Global;

/// Whether a predicate is there without a definition. That without a name accepts anything.
pub fn is_own(name: &[u8]) -> bool
    ensures { result ≡ spec.is_own name.now }
{
    BuiltIn::named(name).is_some()
}

fn is_accepted(predicates: &NameTable<PredicateDraft>, accepted: &[bool], name: &[u8]) -> bool
    ensures { result ≡ spec.is_accepted predicates.now accepted.now name.now }
{
    match predicates.place_of(name) {
        Some(at) => match accepted.get(at) {
            Some(accepted) => *accepted,
            None => false,
        },
        None => false,
    }
}

/// Whether a predicate has no definition, or an accepted one.
pub fn is_known(predicates: &NameTable<PredicateDraft>, accepted: &[bool], name: &[u8]) -> bool
    ensures { result ≡ spec.is_known predicates.now accepted.now name.now }
{
    is_own(name) || is_accepted(predicates, accepted, name)
}

/// Whether all of some predicates are known.
pub fn all_known(predicates: &NameTable<PredicateDraft>, accepted: &[bool], names: &[Name]) -> bool
    ensures { result ≡ list_all (spec.is_known predicates.now accepted.now) names.now }
{
    names
        .iter()
        .all(|name| is_known(predicates, accepted, name.bytes()))
}

// ---- depths

/// The depth at a place, if there is one.
fn depth_at(depths: &[Option<usize>], place: Option<usize>) -> Option<usize>
    ensures { (n : ℕ) → is_below n result ≡
        unwrap_or (option_and_then (slice_get (below n depths.now)) place) false }
{
    match depths.get(place?) {
        Some(depth) => *depth,
        None => None,
    }
}

/// One deeper than a depth, where so many rounds tell it.
fn one_deeper(depth: Option<usize>, rounds: usize) -> Option<usize>
    ensures { (n : ℕ) → n < rounds → is_below (n + 1) result ≡ is_below n depth }
{
    match depth {
        Some(depth) if depth < rounds => Some(depth + 1),
        _ => None,
    }
}

/// How deep a definition goes that names this predicate alone.
fn depth_below(
    predicates: &NameTable<PredicateDraft>,
    depths: &[Option<usize>],
    rounds: usize,
    name: &[u8],
) -> Option<usize>
    ensures { (n : ℕ) → n < rounds →
        is_below (n + 1) result ≡ spec.is_known predicates.now (below n depths.now) name.now }
{
    if is_own(name) {
        Some(0)
    } else {
        one_deeper(depth_at(depths, predicates.place_of(name)), rounds)
    }
}

/// How deep a definition goes that names these predicates.
fn depth_below_all(
    predicates: &NameTable<PredicateDraft>,
    depths: &[Option<usize>],
    rounds: usize,
    names: &[Name],
) -> Option<usize>
    ensures { (n : ℕ) → n < rounds → is_below (n + 1) result ≡
        list_all (spec.is_known predicates.now (below n depths.now)) names.now }
{
    let mut deepest = 0;
    for name in names {
        match depth_below(predicates, depths, rounds, name.bytes()) {
            Some(depth) => deepest = deepest.max(depth),
            None => return None,
        }
    }
    Some(deepest)
}

/// How deep a definition goes. One that is not accepted has no depth.
pub fn depth_of(
    predicates: &NameTable<PredicateDraft>,
    depths: &[Option<usize>],
    rounds: usize,
    d: &PredicateDraft,
) -> Option<usize>
    ensures { (n : ℕ) → n < rounds →
        is_below (n + 1) result ≡ spec.is_sound predicates.now (below n depths.now) d.now }
{
    if d.whole {
        depth_below_all(predicates, depths, rounds, d.uses.as_slice())
    } else {
        None
    }
}

/// One round: the depths of all definitions, where what they name is as deep as is told.
fn round(
    alloc: Global,
    predicates: &NameTable<PredicateDraft>,
    depths: &[Option<usize>],
    rounds: usize,
) -> Result<Items<Option<usize>>, Memory>
    ensures { IfOk result (λ next. IsNext rounds predicates.now depths.now next) }
{
    let mut next = Items::new(alloc);
    for d in predicates.as_slice() {
        next.push(depth_of(predicates, depths, rounds, d))?;
    }
    Ok(next)
}

/// Whether a round changed nothing.
fn is_last(next: &[Option<usize>], depths: &[Option<usize>]) -> bool
    ensures { IsTrue result ↔ (next.now ≡ depths.now) }
{
    next == depths
}

/// Whether there is a depth, and it is less than so many rounds.
fn is_less(depth: Option<usize>, rounds: usize) -> bool
    ensures { result ≡ is_below rounds depth }
{
    match depth {
        Some(depth) => depth < rounds,
        None => false,
    }
}

/// Which depths are less than so many rounds.
fn all_less(alloc: Global, depths: &[Option<usize>], rounds: usize) -> Result<Items<bool>, Memory>
    ensures { IfOk result (λ flags. flags ≡ below rounds depths.now) }
{
    let mut flags = Items::new(alloc);
    for depth in depths {
        flags.push(is_less(*depth, rounds))?;
    }
    Ok(flags)
}

/// Which definitions are accepted within so many rounds.
///
/// Rounds come to the right depths whatever they begin with, and one that changes nothing is the
/// last. Those of the walk are right, so the first round changes nothing.
pub fn accepted_within(
    alloc: Global,
    predicates: &NameTable<PredicateDraft>,
    rounds: usize,
) -> Result<Items<bool>, Memory>
    ensures { IfOk result (λ accepted. accepted ≡ spec.accepted_within rounds predicates.now) }
{
    let found = first_depths(alloc, predicates, rounds)?;
    let mut depths = round(alloc, predicates, found.as_slice(), rounds)?;
    for _done in 0..rounds {
        let next = round(alloc, predicates, depths.as_slice(), rounds)?;
        if is_last(next.as_slice(), depths.as_slice()) {
            return all_less(alloc, depths.as_slice(), rounds);
        }
        depths = next;
    }
    all_less(alloc, depths.as_slice(), rounds)
}
