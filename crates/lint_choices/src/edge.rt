//! The ends of what is taken.
ghost use Rattle.std.specs.Prelude.{◌≡◌, ◌<◌, length, IfOk};
ghost use Rattle.lint_choices.specs.Edges as spec;

use plain_data::{Items, Memory};
use std::alloc::Global;

fn is_taken(taken: &[bool], place: usize) -> bool
    ensures { result ≡ spec.is_taken taken.now place }
{
    match taken.get(place) {
        Some(is) => *is,
        None => false,
    }
}

/// Whether both neighbours of a place of the list are taken.
fn are_beside(taken: &[bool], place: usize) -> bool
    requires { place < length taken.now }
    ensures { result ≡ spec.are_beside taken.now place }
{
    if place == 0 {
        return false;
    }
    is_taken(taken, place - 1) && is_taken(taken, place + 1)
}

/// Whether a place of the list is taken, while a neighbour isn't or it is always tried.
fn is_kept(taken: &[bool], always: &[bool], place: usize) -> bool
    requires { place < length taken.now }
    ensures { result ≡ spec.is_kept taken.now always.now place }
{
    is_taken(taken, place) && (!are_beside(taken, place) || is_taken(always, place))
}

/// The places at which one is taken while one beside it isn't, or which are always tried.
#[tactic(auto, using(crate::proofs::EdgeLaws::edge_next, crate::proofs::EdgeLaws::no_edge_next, crate::proofs::EdgeLaws::edges_end))]
pub fn edges(alloc: Global, taken: &[bool], always: &[bool]) -> Result<Items<usize>, Memory>
    ensures { IfOk result (λ places. places ≡ spec.edges taken.now always.now) }
{
    let mut places = Items::new(alloc);
    for place in 0..taken.len() {
        if is_kept(taken, always, place) {
            places.push(place)?;
        }
    }
    Ok(places)
}
