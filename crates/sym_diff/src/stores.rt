//! The stores, by their places.
ghost use Rattle.std.specs.Prelude.{◌≡◌, map, slice_get, option_map, Some, None, IfOk};
ghost use Rattle.sym_term.specs.Views.{store_of};
ghost use Rattle.sym_diff.specs.Compared as spec;
ghost use Rattle.sym_diff.specs.machine.Places as places;
ghost use Rattle.sym_diff.specs.Views.{difference_of};

use crate::difference::{Found, compared_terms, differ, nothing};
use plain_data::Memory;
use std::alloc::Global;
use sym_term::{SymStore, TermMaker};
use term_text::Item;

/// The addresses where they differ, else the values.
fn compared_store(
    maker: &mut TermMaker,
    alloc: Global,
    index: u32,
    a: &SymStore,
    b: &SymStore,
) -> Result<Found, Memory>
    ensures { IfOk result (λ found. option_map difference_of found ≡
        spec.compared_store index (store_of a.now) (store_of b.now)) }
{
    let item = Item::Store { index };
    match compared_terms(maker, alloc, item, a.address.term(), b.address.term())? {
        Some(found) => Ok(Some(found)),
        None => compared_terms(maker, alloc, item, a.value.term(), b.value.term()),
    }
}

/// A store that the second side has not.
fn missing_right(alloc: Global, index: u32, a: &SymStore) -> Result<Found, Memory>
    ensures { IfOk result (λ found. option_map difference_of found ≡
        places.compared_at index (Some (store_of a.now)) None) }
{
    differ(
        alloc,
        Item::Store { index },
        a.address.term(),
        &nothing(alloc),
    )
}

/// A store that the first side has not.
fn missing_left(alloc: Global, index: u32, b: &SymStore) -> Result<Found, Memory>
    ensures { IfOk result (λ found. option_map difference_of found ≡
        places.compared_at index None (Some (store_of b.now))) }
{
    differ(
        alloc,
        Item::Store { index },
        &nothing(alloc),
        b.address.term(),
    )
}

/// The stores at a place. A place from 2 ^ 32 on, which no memory holds, is want of memory.
#[tactic(auto, using(crate::proofs::StoreLaws::stores_seen))]
fn compared_at(
    maker: &mut TermMaker,
    alloc: Global,
    at: usize,
    a: &[SymStore],
    b: &[SymStore],
) -> Result<Found, Memory>
    ensures { IfOk result (λ found. option_map difference_of found ≡
        places.compared_at at (slice_get (map store_of a.now) at)
        (slice_get (map store_of b.now) at)) }
{
    let Ok(index) = u32::try_from(at) else {
        return Err(Memory);
    };
    match a.get(at) {
        None => match b.get(at) {
            None => Ok(None),
            Some(b) => missing_left(alloc, index, b),
        },
        Some(a) => match b.get(at) {
            None => missing_right(alloc, index, a),
            Some(b) => compared_store(maker, alloc, index, a, b),
        },
    }
}

/// The stores.
#[tactic(auto, using(crate::proofs::StoreLaws::stores_follow))]
pub fn compared_stores(
    maker: &mut TermMaker,
    alloc: Global,
    a: &[SymStore],
    b: &[SymStore],
) -> Result<Found, Memory>
    ensures { IfOk result (λ found. option_map difference_of found ≡
        spec.compared_stores 0 (map store_of a.now) (map store_of b.now)) }
{
    for at in 0..a.len().max(b.len()) {
        if let Some(found) = compared_at(maker, alloc, at, a, b)? {
            return Ok(Some(found));
        }
    }
    Ok(None)
}
