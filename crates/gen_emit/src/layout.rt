//! Where the trees among heads stand.
ghost use Rattle.std.specs.Prelude.{◌≡◌, ◌≤◌, length, map, reverse, take, drop, IfOk};
ghost use Rattle.std.specs.List.{AllByRecursion};
ghost use Rattle.c_eval.specs.machine.Places.{trees_at};
ghost use Rattle.gen_emit.specs.machine.Layout as spec;

use c_cond::CondHead;
use c_eval::size_of;
use plain_data::{Items, Memory};
use std::alloc::Global;

/// The parts of a tree, by the places at which they end, from the left.
#[derive(Clone, Copy)]
pub enum Parts {
    /// No part.
    None,
    /// One.
    One(usize),
    /// Two.
    Two(usize, usize),
    /// Three.
    Three(usize, usize, usize),
}

/// The place right before the last tree that ends at a place.
fn before(heads: &[CondHead], starts: &[usize], end: usize) -> usize
    requires starts { spec.AreStarts heads.now starts.now }
    requires within { end ≤ length starts.now }
    ensures { spec.IsBefore heads.now end result }
{
    if end > 0 { starts[end - 1] } else { 0 }
}

/// The place right before so many trees.
fn back(heads: &[CondHead], starts: &[usize], end: usize, count: usize) -> usize
    requires starts { spec.AreStarts heads.now starts.now }
    requires within { end ≤ length starts.now }
    ensures back { result ≤ end }
    ensures trees { trees_at heads.now result ≡ drop count (trees_at heads.now end) }
{
    let mut place = end;
    for _step in 0..count {
        place = before(heads, starts, place);
    }
    place
}

/// For each head the place at which the tree starts whose last head it is.
pub fn starts_of(alloc: Global, heads: &[CondHead]) -> Result<Items<usize>, Memory>
    ensures { IfOk result (λ starts. spec.AreAllStarts heads.now starts) }
{
    let mut starts = Items::new(alloc);
    for at in 0..heads.len() {
        let start = back(heads, starts.as_slice(), at, size_of(&heads[at]));
        starts.push(start)?;
    }
    Ok(starts)
}

/// The last trees before the place `at`, so many of them as there are up to a count.
fn last_parts(heads: &[CondHead], starts: &[usize], at: usize, count: usize) -> Parts
    requires starts { spec.AreAllStarts heads.now starts.now }
    requires within { at ≤ length heads.now }
    requires few { count ≤ 3 }
    ensures trees { map (spec.tree_at heads.now) (spec.ends_of result) ≡
        reverse (take count (trees_at heads.now at)) }
    ensures ends { AllByRecursion (spec.IsEnd heads.now) (spec.ends_of result) }
{
    if count == 0 || at == 0 {
        return Parts::None;
    }
    let second = before(heads, starts, at);
    if count == 1 || second == 0 {
        return Parts::One(at);
    }
    let third = before(heads, starts, second);
    if count == 2 || third == 0 {
        return Parts::Two(second, at);
    }
    Parts::Three(third, second, at)
}

/// A tree: its head, and its parts.
#[derive(Clone, Copy)]
pub struct Node<'a> {
    /// The head of the tree.
    pub head: &'a CondHead,
    /// The parts of the tree.
    pub parts: Parts,
}

/// The tree that ends at a place.
pub fn node_at<'a>(heads: &'a [CondHead], starts: &[usize], end: usize) -> Node<'a>
    requires starts { spec.AreAllStarts heads.now starts.now }
    requires end { spec.IsEnd heads.now end }
    ensures { spec.IsMade heads.now end result.head.now result.parts }
{
    let at = end - 1;
    let head = &heads[at];
    let parts = last_parts(heads, starts, at, size_of(head));
    Node { head, parts }
}
