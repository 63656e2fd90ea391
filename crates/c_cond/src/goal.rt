//! What a text must still have, innermost first.
ghost use Rattle.std.specs.Prelude.{◌≡◌, List, [], ◌∷◌, OnOk, OnErr, MatchOption, length, reverse};
ghost use Rattle.std.specs.Option.{is_some};
ghost use Rattle.c_cond.specs.machine.Steps.{passed};

use crate::part::Part;
use c_words::{CondHead, Property};
use plain_data::Memory;
use std::alloc::Global;
use std::marker::Model;

/// What must come next, or may.
#[derive(Drop)]
pub enum Goal {
    /// A given byte must come.
    Mark(u8),
    /// Nothing: all parts of this head have come.
    Yield(CondHead),
    /// A given part of a condition must come.
    Part(Part),
    /// An expression may go on by an operator of these levels.
    More { from: u8, to: u8 },
    /// `==` or `!=` must come.
    Comparison(Property),
    /// A name must come that is compared with a property.
    Compared { property: Property, equal: bool },
    /// The number of an operand must come, and the bracket behind it.
    Index,
    /// The number of an operand must come, and what it becomes.
    Target,
    /// A statement must come.
    Statement,
    /// `else` may come, and a statement.
    Else,
    /// Statements may come.
    Statements,
    /// A condition may come.
    Condition,
}

impl Goal {
    /// Whether the goal may be passed over.
    pub fn may_pass(&self) -> bool
        ensures { result ≡ is_some (passed self.now) }
    {
        matches!(
            self,
            Goal::Yield(_)
                | Goal::More { from: _, to: _ }
                | Goal::Else
                | Goal::Statements
                | Goal::Condition
        )
    }
}

/// What a text must still have. Contracts see it with what must come first at the head.
#[derive(Drop)]
pub struct Goals {
    goals: Vec<Goal>,
}

impl Model for Goals {
    ghost use Rattle.std.specs.Prelude.{List, reverse};
    ghost use Rattle.std.specs.Coded.{coded_list};
    ghost use Rattle.c_cond.specs.declared.goal.Goal.{Goal};
    ghost use Rattle.c_cond.specs.contracts.goal.Goal as goal;

    ghost Value = { List Goal };

    ghost coded = { coded_list goal.the_row.coded };

    ghost view = { λ s. reverse s.goals.items };
}

impl Goals {
    /// Nothing must come. It takes no memory.
    pub fn new(alloc: Global) -> Goals
        ensures { result ≡ [] }
    {
        Goals {
            goals: Vec::new(alloc),
        }
    }

    /// Before all else, this must come.
    pub fn push(&mut self, goal: Goal) -> Result<(), Memory>
        ensures { OnOk result (self.new ≡ goal ∷ self.old) }
    {
        self.goals.push(goal)?;
        Ok(())
    }

    /// What must come first.
    pub fn pop(&mut self) -> Option<Goal>
        ensures { MatchOption result ((self.old ≡ []) × (self.new ≡ [])) (λ goal.
            self.old ≡ goal ∷ self.new) }
    {
        self.goals.pop()
    }

    /// What must come, last first.
    pub fn as_slice(&self) -> &[Goal]
        ensures { reverse result.now ≡ self.now }
    {
        self.goals.as_slice()
    }
}
