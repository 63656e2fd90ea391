//! What questions ask.
ghost use Rattle.std.specs.Prelude.{◌≡◌};
ghost use Rattle.c_cond.specs.Tree.{tree_of};
ghost use Rattle.pred_rows.specs.machine.Rows as rows;
ghost use Rattle.pred_rows.specs.Tests as spec;

use crate::node::Node;
use c_cond::CondHead;
use c_eval::{Preds, is_a, test_worth};
use rtx_tree::{Code, Mode, Rtx};

/// Whether an operand has one of some codes.
pub fn has_code(codes: &[Code], x: &Rtx) -> bool
    ensures { result ≡ spec.has_code codes.now x.now }
{
    codes.iter().any(|code| is_a(*code, x))
}

/// Whether a condition, given by its heads, isn't 0 for an operand.
pub fn condition_holds(heads: &[CondHead], x: &Rtx) -> bool
    ensures { result ≡ spec.condition_holds (tree_of heads.now) x.now }
{
    test_worth(heads, x) != 0
}

/// Whether the test whose root stands at a place holds.
#[cycle(asked)]
pub fn holds_at<P: Preds>(nodes: &[Node], root: usize, preds: &P, x: &Rtx, mode: Mode) -> bool
    ensures { result ≡ rows.holds_at (P.accepts preds.now) x.now mode nodes.now root }
{
    match nodes.get(root) {
        Some(node) => node_answer(&nodes[..root], node, preds, x, mode),
        None => false,
    }
}

/// The answer of a node behind some others.
#[cycle(asked)]
fn node_answer<P: Preds>(before: &[Node], node: &Node, preds: &P, x: &Rtx, mode: Mode) -> bool
    ensures { result ≡ rows.node_answer (P.accepts preds.now) x.now mode
        (rows.answers (P.accepts preds.now) x.now mode before.now) node.now }
{
    match node {
        Node::Codes(codes) => has_code(codes.as_slice(), x),
        Node::Condition(heads) => condition_holds(heads.as_slice(), x),
        Node::Predicate { name, mode: own } => preds.holds(name, x, own.or(mode)),
        Node::And(a, b) => {
            holds_at(before, *a, preds, x, mode) && holds_at(before, *b, preds, x, mode)
        }
        Node::Ior(a, b) => {
            holds_at(before, *a, preds, x, mode) || holds_at(before, *b, preds, x, mode)
        }
        Node::Not(a) => !holds_at(before, *a, preds, x, mode),
        Node::IfThenElse(a, b, c) => {
            if holds_at(before, *a, preds, x, mode) {
                holds_at(before, *b, preds, x, mode)
            } else {
                holds_at(before, *c, preds, x, mode)
            }
        }
    }
}
