//! What is still asked of a table of predicates.
ghost use Rattle.std.specs.Prelude.{◌≡◌};

use rtx_tree::Mode;

/// A question that a table is asked.
#[derive(Clone, Copy)]
pub struct At {
    /// The place of the question's node.
    pub place: usize,
    /// The mode in which the operand is asked for.
    pub mode: Mode,
    /// How often definitions may be asked for from there.
    pub rounds: usize,
}

/// What answers a question.
#[derive(Clone, Copy)]
pub enum Step {
    /// The answer itself.
    Answer(bool),
    /// The answer to another question.
    Is(At),
    /// The other answer to another question.
    IsNot(At),
}

impl Step {
    ghost use Rattle.std.specs.Prelude.{ℕ, not};
    ghost use Rattle.rtx_tree.specs.declared.tree.Rtx.{Rtx};
    ghost use Rattle.md_pred.specs.declared.table.PredTable.{PredTable};
    ghost use Rattle.md_pred.specs.machine.Steps as steps;

    /// What gives the other answer.
    pub fn turned(self) -> Step
        ensures value { (table : PredTable) (x : Rtx) →
            steps.step_holds table x result ≡ not (steps.step_holds table x self) }
        ensures size { (table : PredTable) →
            steps.step_size table result ≡ steps.step_size table self }
    {
        match self {
            Step::Answer(answer) => Step::Answer(!answer),
            Step::Is(at) => Step::IsNot(at),
            Step::IsNot(at) => Step::Is(at),
        }
    }
}
