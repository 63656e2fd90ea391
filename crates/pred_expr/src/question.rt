//! Tests of predicates and constraints, as trees.
ghost use Rattle.std.specs.Prelude.{◌≡◌, ◌++◌, OnOk};
ghost use Rattle.pred_expr.specs.Test.{predicate_of, predicates_of};

use c_cond::Cond;
use plain_data::{Items, Memory};
use rtx_tree::{Code, Mode, Name};
use std::alloc::Global;

/// Codes of expressions.
pub type Codes = Items<Code>;

/// What a test asks.
#[derive(Drop)]
pub enum Question {
    /// `(match_code "CODES")`: whether the operand has one of these codes.
    Codes(Codes),
    /// `(match_test "CONDITION")`: whether the condition isn't 0 for the operand.
    Condition(Cond),
    /// `(match_operand N "PREDICATE")`: whether the predicate accepts the operand, in this mode or
    /// in that of the call.
    Predicate { name: Name, mode: Mode },
    /// Whether both parts hold.
    And,
    /// Whether one of two parts holds.
    Ior,
    /// Whether the part does not hold.
    Not,
    /// Whether the second of three parts holds where the first does, and else the third.
    IfThenElse,
}

/// A test of an operand.
#[derive(Drop)]
pub struct Test {
    /// What the test asks.
    pub question: Question,
    /// The tests that it is made of.
    pub parts: Tests,
}

/// Some tests, in order.
pub type Tests = Items<Test>;

fn push_predicate(alloc: Global, question: &Question, names: &mut Items<Name>) -> Result<(), Memory>
    ensures { OnOk result (names.new ≡ names.old ++ predicate_of question.now) }
{
    match question {
        Question::Predicate { name, .. } => names.push(name.copy(alloc)?),
        _ => Ok(()),
    }
}

impl Test {
    /// Appends the names of the predicates that a test names, in the order of the text.
    #[tactic(auto, using(crate::proofs::TestLaws::pushed_first, crate::proofs::Each::pushed_next, crate::proofs::Each::pushed_ends))]
    pub fn push_predicates(&self, alloc: Global, names: &mut Items<Name>) -> Result<(), Memory>
        ensures { OnOk result (names.new ≡ names.old ++ predicates_of self.now) }
    {
        push_predicate(alloc, &self.question, names)?;
        for part in self.parts.as_slice() {
            part.push_predicates(alloc, names)?;
        }
        Ok(())
    }
}
