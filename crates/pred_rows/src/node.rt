//! Questions of tests in a row.
ghost use Rattle.std.specs.Prelude.{◌≡◌, [], ◌∷◌, ◌++◌, length, take, IfOk, OnErr, OnOk};

use c_cond::CondHead;
use plain_data::{Items, Memory};
use pred_expr::Codes;
use rtx_tree::{Mode, Name};
use std::alloc::Global;
use std::marker::Model;

/// The heads of a condition, each behind its parts.
pub type Heads = Items<CondHead>;

/// A question of a test. The questions that it is made of stand before it in the row, and are given
/// by their places there.
#[derive(Drop)]
pub enum Node {
    /// Whether the operand has one of these codes.
    Codes(Codes),
    /// Whether the condition isn't 0 for the operand.
    Condition(Heads),
    /// Whether the predicate accepts the operand, in this mode or in that of the call.
    Predicate { name: Name, mode: Mode },
    /// Whether both hold.
    And(usize, usize),
    /// Whether one of the two holds.
    Ior(usize, usize),
    /// Whether the other does not hold.
    Not(usize),
    /// Whether the second holds where the first does, and else the third.
    IfThenElse(usize, usize, usize),
}

/// The questions of some tests.
pub type Nodes = Items<Node>;
