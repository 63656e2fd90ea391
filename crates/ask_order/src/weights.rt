//! How many are asked for each place.
ghost use Rattle.std.specs.Prelude.{◌≡◌, ◌+◌, ◌-◌, ◌^◌, min, IfOk};
ghost use Rattle.ask_order.specs.Order as spec;
ghost use Rattle.ask_order.specs.Order.{IsOrder, AreWeights};

use crate::search::asked_at;
use plain_data::{Items, Memory};
use std::alloc::Global;

/// The sum of two weights, or the greatest weight where it is more.
fn sum(a: u32, b: u32) -> u32
    ensures { result ≡ min (a + b) (2 ^ 32 - 1) }
{
    match a.checked_add(b) {
        Some(sum) => sum,
        None => u32::MAX,
    }
}

fn weight_at(weights: &[u32], place: usize) -> u32
    ensures { result ≡ spec.weight_at weights.now place }
{
    match weights.get(place) {
        Some(weight) => *weight,
        None => 0,
    }
}

/// How many are asked for one that asks some places, by how many are asked for these.
fn weight_of(weights: &[u32], places: &[usize]) -> u32
    ensures { result ≡ spec.weighs weights.now places.now }
{
    let mut weight = 1;
    for place in places {
        weight = sum(weight, weight_at(weights, *place));
    }
    weight
}

/// How many are asked for each place of an order: it, and for each that it asks as many as for
/// that.
pub fn weights_of(
    alloc: Global,
    asked: &[Items<usize>],
    order: &[usize],
) -> Result<Items<u32>, Memory>
    requires { IsOrder asked.now order.now }
    ensures { IfOk result (AreWeights asked.now order.now) }
{
    let mut none = Vec::new(alloc);
    none.resize(asked.len(), 0)?;
    let mut weights = Items::from_vec(none);
    for place in order {
        let weight = weight_of(weights.as_slice(), asked_at(asked, *place));
        weights.replace(*place, weight);
    }
    Ok(weights)
}
