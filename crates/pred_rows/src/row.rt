//! Tests in a row.
ghost use Rattle.std.specs.Prelude.{◌≡◌, ◌<◌, [], ◌∷◌, ◌++◌, length, take, IfOk, OnErr, OnOk};
ghost use Rattle.pred_rows.specs.machine.Rows as spec;
ghost use Rattle.pred_rows.specs.machine.Steps as steps;

use crate::asked::holds_at;
use crate::node::{Node, Nodes};
use c_cond::heads_copy;
use c_eval::Preds;
use plain_data::{Items, Memory};
use pred_expr::{Question, Test};
use rtx_tree::{Mode, Rtx};
use std::alloc::Global;
use std::marker::Model;

/// Tests as their questions in a row, each behind those that it is made of. Contracts see the row.
#[derive(Drop)]
pub struct TestRows {
    nodes: Nodes,
}

impl Model for TestRows {
    ghost use Rattle.std.specs.Prelude.{List};
    ghost use Rattle.std.specs.Coded.{coded_list};
    ghost use Rattle.pred_rows.specs.declared.node.Node.{Node};

    ghost Value = { List Node };

    ghost view = { λ rows. rows.nodes };
}

/// A question that never holds.
fn never(alloc: Global) -> Node
    ensures { steps.IsNever result }
{
    Node::Codes(Items::new(alloc))
}

/// The node of a question that is made of no others.
fn alone(alloc: Global, question: &Question) -> Result<Node, Memory>
    ensures { IfOk result (steps.Asks question.now []) }
{
    match question {
        Question::Codes(codes) => Ok(Node::Codes(Items::from_slice(alloc, codes.as_slice())?)),
        Question::Condition(condition) => {
            Ok(Node::Condition(heads_copy(alloc, condition.heads())?))
        }
        Question::Predicate { name, mode } => Ok(Node::Predicate {
            name: name.copy(alloc)?,
            mode: *mode,
        }),
        Question::And | Question::Ior | Question::Not | Question::IfThenElse => Ok(never(alloc)),
    }
}

/// The node of a question that is made of others.
fn joined(alloc: Global, question: &Question, parts: &[usize]) -> Node
    requires { 0 < length parts.now }
    ensures { steps.Asks question.now parts.now result }
{
    match (question, parts) {
        (Question::And, [a, b]) => Node::And(*a, *b),
        (Question::Ior, [a, b]) => Node::Ior(*a, *b),
        (Question::Not, [a]) => Node::Not(*a),
        (Question::IfThenElse, [a, b, c]) => Node::IfThenElse(*a, *b, *c),
        _ => never(alloc),
    }
}

/// The node of a question that is made of those at some places.
fn node_of(alloc: Global, question: &Question, parts: &[usize]) -> Result<Node, Memory>
    ensures { IfOk result (steps.Asks question.now parts.now) }
{
    if parts.is_empty() {
        alone(alloc, question)
    } else {
        Ok(joined(alloc, question, parts))
    }
}

/// Appends a node, and gives its place.
fn push_node(nodes: &mut Nodes, node: Node) -> Result<usize, Memory>
    ensures place { IfOk result (λ place. place ≡ length nodes.old) }
    ensures more { OnOk result (nodes.new ≡ nodes.old ++ node ∷ []) }
    ensures err { OnErr result (nodes.new ≡ nodes.old) }
{
    let place = nodes.len();
    nodes.push(node)?;
    Ok(place)
}

/// Appends some tests, and gives the places of their roots.
#[cycle(push)]
fn push_all(alloc: Global, nodes: &mut Nodes, tests: &[Test]) -> Result<Items<usize>, Memory>
    ensures kept { take (length nodes.old) nodes.new ≡ nodes.old }
    ensures roots { IfOk result (steps.AreRoots nodes.new tests.now) }
{
    let mut roots = Items::new(alloc);
    for test in tests {
        roots.push(push_test(alloc, nodes, test)?)?;
    }
    Ok(roots)
}

/// Appends a test, and gives the place of its root.
#[cycle(push)]
fn push_test(alloc: Global, nodes: &mut Nodes, test: &Test) -> Result<usize, Memory>
    ensures kept { take (length nodes.old) nodes.new ≡ nodes.old }
    ensures root { IfOk result (spec.IsRoot nodes.new test.now) }
{
    let parts = push_all(alloc, nodes, test.parts.as_slice())?;
    let node = node_of(alloc, &test.question, parts.as_slice())?;
    push_node(nodes, node)
}

impl TestRows {
    /// No test. It takes no memory.
    pub fn new(alloc: Global) -> TestRows
        ensures { result ≡ [] }
    {
        TestRows {
            nodes: Items::new(alloc),
        }
    }

    /// The questions, in order.
    pub fn nodes(&self) -> &[Node]
        ensures { result.now ≡ self.now }
    {
        self.nodes.as_slice()
    }

    /// Puts a test behind the others, and gives the place of its root. The tests that stand in the
    /// row stay where they are, also where memory runs out; then some questions more may stand
    /// behind them.
    pub fn push(&mut self, alloc: Global, test: &Test) -> Result<usize, Memory>
        ensures kept { take (length self.old) self.new ≡ self.old }
        ensures root { IfOk result (spec.IsRoot self.new test.now) }
    {
        push_test(alloc, &mut self.nodes, test)
    }

    /// Whether the test whose root stands at a place holds for an operand that is asked for in a
    /// mode; none holds where no node stands. It takes no memory, and goes as deep as the test.
    pub fn holds<P: Preds>(&self, root: usize, preds: &P, x: &Rtx, mode: Mode) -> bool
        ensures { result ≡ spec.holds_at (P.accepts preds.now) x.now mode self.now root }
    {
        holds_at(self.nodes(), root, preds, x, mode)
    }
}
