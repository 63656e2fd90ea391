//! Patterns that are written out as rows of expressions.
ghost use Rattle.std.specs.Prelude.{◌≡◌, ◌↔◌, IfOk, IsTrue, OnOk};
ghost use Rattle.plain_held.specs.Rows as spec;

use crate::row::Node;
use plain_data::{Items, Memory};
use rtx_tree::{Kids, Name, Rtx, same};
use std::alloc::Global;

/// Puts an expression behind some trees; the last of them become its parts.
fn grow(alloc: Global, trees: &mut Vec<Rtx>, node: Node) -> Result<(), Memory>
    ensures { OnOk result (trees.new.items ≡ spec.grown_by trees.old.items node) }
{
    let name = Name::of(alloc, node.name.as_bytes())?;
    let parts = trees.split_off(trees.len().saturating_sub(node.parts))?;
    trees.push(Rtx {
        code: node.code,
        mode: node.mode,
        number: node.number,
        name,
        kids: Items::from_vec(parts),
    })?;
    Ok(())
}

/// The trees that a row of expressions is.
fn trees_of(alloc: Global, nodes: &[Node]) -> Result<Kids, Memory>
    ensures { IfOk result (λ trees. trees ≡ spec.trees_of nodes.now) }
{
    let mut trees = Vec::new(alloc);
    for node in nodes {
        grow(alloc, &mut trees, *node)?;
    }
    Ok(Items::from_vec(trees))
}

/// Whether trees are the same, each as that at its place.
#[tactic(auto, using(crate::proofs::Same::same_lists))]
fn same_trees(xs: &[Rtx], ys: &[Rtx]) -> bool
    ensures { IsTrue result ↔ (xs.now ≡ ys.now) }
{
    if xs.len() != ys.len() {
        return false;
    }
    for i in 0..xs.len() {
        if !same(&xs[i], &ys[i]) {
            return false;
        }
    }
    true
}

/// Whether trees are those that a row of expressions is.
pub fn are_trees(alloc: Global, trees: &[Rtx], nodes: &[Node]) -> Result<bool, Memory>
    ensures { IfOk result (λ same. IsTrue same ↔ (trees.now ≡ spec.trees_of nodes.now)) }
{
    let wanted = trees_of(alloc, nodes)?;
    Ok(same_trees(trees, wanted.as_slice()))
}
