//! Loads, which move over stores that they lie apart from.
ghost use Rattle.std.specs.Prelude.{◌≡◌, map, slice_get, IfOk};
ghost use Rattle.std.specs.Option.{option_copied};
ghost use Rattle.bits64.specs.Words.{bytes_of};
ghost use Rattle.term_tree.specs.View.{tree_of};
ghost use Rattle.term_cuts.specs.term_mean.Loads as spec;
ghost use Rattle.sym_term.specs.Views.{store_of};

use crate::stores::{SymStore, SymStores};
use bits64::Width;
use plain_data::{Items, Memory};
use rtx_tree::Name;
use std::alloc::Global;
use term_sums::{constant_of, minus};
use term_tree::{Head, Term};

/// Whether p bytes at a and q bytes at b do not meet, where a - b is `d`.
fn is_apart(p: u32, q: u32, d: Option<u64>) -> bool
    ensures { result ≡ spec.is_apart p q d }
{
    match d {
        None => false,
        Some(d) => u64::from(q) <= d && u128::from(p) + u128::from(d) <= 1 << 64,
    }
}

/// Whether `w` bits at an address and those of a store do not meet.
fn lies_apart(alloc: Global, w: Width, a: &Term, store: &SymStore) -> Result<bool, Memory>
    ensures { IfOk result (λ r. r ≡ spec.lies_apart w (tree_of a.now) (Some (store_of store.now))) }
{
    let left = a.copy(alloc)?;
    let distance = minus(alloc, Width::W64, left, store.address.term())?;
    Ok(is_apart(
        w.bytes(),
        store.value.term().width().bytes(),
        constant_of(&distance),
    ))
}

/// The store with an index, if there is one.
fn store_at(stores: &[SymStore], index: u64) -> Option<&SymStore>
    ensures { option_copied result ≡ slice_get stores.now index }
{
    if index < stores.len() as u64 {
        Some(&stores[index as usize])
    } else {
        None
    }
}

/// Whether a load lies apart from the store with an index.
fn may_move(
    alloc: Global,
    stores: &[SymStore],
    w: Width,
    a: &Term,
    index: u64,
) -> Result<bool, Memory>
    ensures { IfOk result (λ r. r ≡ spec.lies_apart w (tree_of a.now)
        (slice_get (map store_of stores.now) index)) }
{
    match store_at(stores, index) {
        None => Ok(false),
        Some(store) => lies_apart(alloc, w, a, store),
    }
}

/// The memory from which `w` bits at an address may be taken in place of memory `n`.
fn source(alloc: Global, stores: &[SymStore], w: Width, a: &Term, n: u64) -> Result<u64, Memory>
    ensures { IfOk result (λ r. r ≡ spec.source (map store_of stores.now) w (tree_of a.now) n) }
{
    let mut number = n;
    while number > 0 {
        if !may_move(alloc, stores, w, a, number - 1)? {
            return Ok(number);
        }
        number -= 1;
    }
    Ok(0)
}

/// A load.
pub fn loaded(alloc: Global, stores: &SymStores, w: Width, n: u64, a: Term) -> Result<Term, Memory>
    ensures { IfOk result (λ r. tree_of r ≡ spec.loaded (map store_of stores.now) w n (tree_of a)) }
{
    let number = source(alloc, stores.as_slice(), w, &a, n)?;
    let mut parts = Items::new(alloc);
    parts.push(a)?;
    Ok(Term::Node {
        head: Head::Load,
        width: w,
        number,
        name: Name::empty(alloc),
        parts,
    })
}
