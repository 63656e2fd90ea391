//! The rows of a graph.
ghost use Rattle.std.specs.Prelude.{◌≡◌, ℕ, ◌-◌, ◌*◌, ◌^◌, ◌<◌, ◌≤◌, false, length, vec_len, sum, All, IfOk};
ghost use Rattle.reg_rows.specs.Table.{has_at, IsTable};
ghost use Rattle.live_rows.specs.Paths.{Fits, HaveRoom, IsLiveRows};
ghost use Rattle.live_rows.specs.machine.Rows.{uses_at, HasUses, IsSound};
ghost use Rattle.live_rows.specs.machine.Waiting.{IsBack, AreLeft};

use crate::back::leading_to;
use crate::node::Node;
use crate::round::round;
use crate::waiting::all_places;
use plain_data::{Items, Memory};
use reg_rows::{RegRow, width_of};
use std::alloc::Global;
use std::mem;

/// For each place the registers that it uses.
fn rows_of_uses(alloc: Global, nodes: &[Node], width: usize) -> Result<Vec<RegRow>, Memory>
    requires small { width ≤ 2 ^ 26 }
    requires fits { All (Fits width) nodes.now }
    ensures long { IfOk result (λ rows. vec_len rows ≡ length nodes.now) }
    ensures each { IfOk result (λ rows. (at reg : ℕ) →
        has_at rows.items at reg ≡ uses_at nodes.now at reg) }
    ensures table { IfOk result (λ rows. IsTable width rows.items) }
{
    let mut rows = Vec::new(alloc);
    for node in nodes {
        let row = RegRow::listed(alloc, node.uses.as_slice(), width)?;
        rows.push(row)?;
    }
    Ok(rows)
}

/// Makes rounds until no row grows.
fn solve(
    nodes: &[Node],
    back: &[Items<u32>],
    rows: &mut [RegRow],
    set: &mut RegRow,
    now: &mut RegRow,
    next: &mut RegRow,
)
    requires small { length nodes.now ≤ 2 ^ 32 }
    requires back { IsBack nodes.now back.now }
    requires long { length back.now ≡ length nodes.now }
    requires places { length rows.old ≡ length nodes.now }
    requires now { length nodes.now ≤ 64 * length now.old }
    requires next { length nodes.now ≤ 64 * length next.old }
    requires table { IsTable (length set.old) rows.old }
    requires uses { HasUses nodes.now rows.old }
    requires sound { IsSound nodes.now rows.old }
    requires pending { AreLeft nodes.now rows.old now.old }
    ensures live { IsLiveRows nodes.now rows.new }
    ensures table { IsTable (length set.old) rows.new }
{
    'rounds: loop {
        next.clear();
        if !round(nodes, back, rows, set, now, next) {
            return;
        }
        mem::swap(now, next);
    }
}

/// A width from `least` on with room for each register that a node uses or defines.
fn width_with(node: &Node, least: usize) -> usize
    requires { least ≤ 2 ^ 26 }
    ensures from { least ≤ result }
    ensures small { result ≤ 2 ^ 26 }
    ensures room { Fits result node.now }
{
    let width = width_of(node.uses.as_slice(), least);
    width_of(node.defines.as_slice(), width)
}

/// A width with room for each register that a node uses or defines.
fn width_for(nodes: &[Node]) -> usize
    ensures small { result ≤ 2 ^ 26 }
    ensures fits { All (Fits result) nodes.now }
{
    let mut width = 0;
    for node in nodes {
        width = width_with(node, width);
    }
    width
}

/// For each place the registers that a path leads from there to a use of, without a definition
/// between. The rows are of one width, with room for what the nodes use and define. A graph of 2^32
/// places or more finds no memory.
pub fn live_rows(alloc: Global, nodes: &[Node]) -> Result<Vec<RegRow>, Memory>
    ensures live { IfOk result (λ rows. IsLiveRows nodes.now rows.items) }
    ensures room { IfOk result (λ rows. HaveRoom nodes.now rows.items) }
{
    if nodes.len() > u32::MAX as usize {
        return Err(Memory);
    }
    let width = width_for(nodes);
    let back = leading_to(alloc, nodes)?;
    let mut rows = rows_of_uses(alloc, nodes, width)?;
    let mut set = RegRow::new(alloc, width)?;
    let mut now = all_places(alloc, nodes.len())?;
    let mut next = all_places(alloc, nodes.len())?;
    solve(
        nodes,
        back.as_slice(),
        rows.as_mut_slice(),
        &mut set,
        &mut now,
        &mut next,
    );
    Ok(rows)
}
