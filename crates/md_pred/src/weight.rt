//! How many questions are asked for each, and an order in which each stands behind those that it is
//! made of.
//!
//! Where no question reaches itself, as in a description, every question stands in the order
//! behind all those that it asks, and has as its weight how many are asked for it
//! (`ask_order/specs`). So a question for which more are asked than there are is answered in that
//! order, each of the others once, and not by itself.
ghost use Rattle.std.specs.Prelude.{◌≡◌, map, IfOk};
ghost use Rattle.ask_order.specs.Order.{IsOrder, AreWeights};
ghost use Rattle.md_pred.specs.machine.Weights as spec;

use crate::definitions::{Definition, Definitions};
use ask_order::{order_of, weights_of};
use plain_data::{Items, Memory};
use pred_rows::Node;
use std::alloc::Global;

/// The places of some questions.
type Places = Items<usize>;

/// The root of a definition, where it has one.
fn root_in(alloc: Global, definition: Option<Definition>) -> Result<Places, Memory>
    ensures { IfOk result (λ places. places ≡ spec.root_in definition) }
{
    match definition {
        Some(
            Definition {
                root: Some(root),
                ..
            },
        ) => Items::from_slice(alloc, &[root]),
        _ => Ok(Items::new(alloc)),
    }
}

/// The questions that a node asks.
fn asked_by(alloc: Global, definitions: &Definitions, node: &Node) -> Result<Places, Memory>
    ensures { IfOk result (λ places. places ≡ spec.asked_by definitions.now node.now) }
{
    match node {
        Node::Codes(_) | Node::Condition(_) => Ok(Items::new(alloc)),
        Node::Predicate { name, .. } => root_in(alloc, definitions.named(name.bytes())),
        Node::Not(a) => Items::from_slice(alloc, &[*a]),
        Node::And(a, b) | Node::Ior(a, b) => Items::from_slice(alloc, &[*a, *b]),
        Node::IfThenElse(a, b, c) => Items::from_slice(alloc, &[*a, *b, *c]),
    }
}

/// The questions that each node asks.
fn asked_of(alloc: Global, definitions: &Definitions) -> Result<Items<Places>, Memory>
    ensures { IfOk result (λ asked. asked ≡ spec.asked_of definitions.now) }
{
    let mut asked = Items::new(alloc);
    for node in definitions.rows.nodes() {
        asked.push(asked_by(alloc, definitions, node)?)?;
    }
    Ok(asked)
}

/// What is known of the nodes of definitions by the others that they ask.
#[derive(Drop)]
pub struct Weighed {
    /// How many questions are asked at most for the node at a place.
    pub weights: Items<u32>,
    /// The places of all nodes, each behind those that its node asks.
    pub order: Items<usize>,
}

/// The weights of all nodes, and their order.
pub fn weigh_all(alloc: Global, definitions: &Definitions) -> Result<Weighed, Memory>
    ensures order { IfOk result (λ w. IsOrder (spec.asked_of definitions.now) w.order) }
    ensures weights { IfOk result (λ w.
        AreWeights (spec.asked_of definitions.now) w.order w.weights) }
{
    let asked = asked_of(alloc, definitions)?;
    let order = order_of(alloc, asked.as_slice())?;
    let weights = weights_of(alloc, asked.as_slice(), order.as_slice())?;
    Ok(Weighed { weights, order })
}
