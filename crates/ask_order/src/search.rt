//! What is still to be put into an order.
ghost use Rattle.std.specs.Prelude.{◌≡◌, OnOk};
ghost use Rattle.std.specs.List.{find};
ghost use Rattle.ask_order.specs.Order as spec;
ghost use Rattle.ask_order.specs.machine.Search.{Goes, is_open, IsKept};

use plain_data::{Items, Memory};
use std::alloc::Global;

/// Whether a place is not yet in the order; one that isn't there is asked by none.
fn is_open(known: &[bool], place: usize) -> bool
    ensures { result ≡ is_open known.now place }
{
    match known.get(place) {
        Some(known) => !*known,
        None => false,
    }
}

/// The first of some places that is not yet in the order.
fn first_open(known: &[bool], places: &[usize]) -> Option<usize>
    ensures { result ≡ find (is_open known.now) places.now }
{
    for place in places {
        if is_open(known, *place) {
            return Some(*place);
        }
    }
    None
}

/// The places that the one at a place asks.
pub fn asked_at(asked: &[Items<usize>], place: usize) -> &[usize]
    ensures { result.now ≡ spec.asked_at asked.now place }
{
    match asked.get(place) {
        Some(places) => places.as_slice(),
        None => &[],
    }
}

/// Puts a place that is not yet in the order, and those that it asks, behind the others there,
/// unless it reaches itself.
pub fn go(
    alloc: Global,
    asked: &[Items<usize>],
    root: usize,
    known: &mut [bool],
    order: &mut Items<usize>,
) -> Result<(), Memory>
    requires { IsKept asked.now known.old order.old }
    ensures { OnOk result (Goes asked.now root known.old known.new order.new) }
{
    let mut stack = Items::new(alloc);
    let mut place = root;
    loop {
        if !is_open(known, place) {
            match stack.pop() {
                Some(before) => place = before,
                None => return Ok(()),
            }
        } else if let Some(next) = first_open(known, asked_at(asked, place)) {
            if stack.len() >= asked.len() {
                return Ok(());
            }
            stack.push(place)?;
            place = next;
        } else {
            order.push(place)?;
            known[place] = true;
        }
    }
}
