//! The places that lead to each place of a graph.
ghost use Rattle.std.specs.Prelude.{◌≡◌, ℕ, ◌<◌, ◌≤◌, ◌^◌, true, length, vec_len, IfOk, OnOk};
ghost use Rattle.live_rows.specs.Paths.{is_place};
ghost use Rattle.live_rows.specs.machine.Waiting.{listed_at, IsBelow, IsBack};

use crate::node::Node;
use plain_data::{Items, Memory};
use std::alloc::Global;

/// Adds a place to the list of the one to which it leads, if there is one.
fn add_back(back: &mut [Items<u32>], place: Option<u32>, from: u32) -> Result<(), Memory>
    ensures kept { OnOk result ((p q : ℕ) →
        listed_at back.old p q ≡ true → listed_at back.new p q ≡ true) }
    ensures added { OnOk result ((p : ℕ) → p < length back.old → is_place place p ≡ true →
        listed_at back.new p from ≡ true) }
    ensures below { OnOk result ((bound : ℕ) → from < bound → IsBelow bound back.old →
        IsBelow bound back.new) }
{
    if let Some(place) = place
        && (place as usize) < back.len()
    {
        back[place as usize].push(from)?;
    }
    Ok(())
}

fn empty_lists(alloc: Global, count: usize) -> Result<Vec<Items<u32>>, Memory>
    ensures long { IfOk result (λ back. vec_len back ≡ count) }
    ensures below { IfOk result (λ back. IsBelow count back.items) }
{
    let mut back = Vec::new(alloc);
    for place in 0..count {
        back.push(Items::new(alloc))?;
    }
    Ok(back)
}

fn fill(nodes: &[Node], back: &mut [Items<u32>]) -> Result<(), Memory>
    requires small { length nodes.now ≤ 2 ^ 32 }
    requires long { length back.old ≡ length nodes.now }
    requires below { IsBelow (length nodes.now) back.old }
    ensures { OnOk result (IsBack nodes.now back.new) }
{
    for at in 0..nodes.len() {
        let node = &nodes[at];
        add_back(back, node.first, at as u32)?;
        add_back(back, node.second, at as u32)?;
    }
    Ok(())
}

/// For each place those that lead to it.
pub fn leading_to(alloc: Global, nodes: &[Node]) -> Result<Vec<Items<u32>>, Memory>
    requires { length nodes.now ≤ 2 ^ 32 }
    ensures long { IfOk result (λ back. vec_len back ≡ length nodes.now) }
    ensures back { IfOk result (λ back. IsBack nodes.now back.items) }
{
    let mut back = empty_lists(alloc, nodes.len())?;
    fill(nodes, back.as_mut_slice())?;
    Ok(back)
}
