//! Parses tokens with a stack of its own.
ghost use Rattle.std.specs.Prelude.{◌≡◌, List, [], ◌∷◌, IfOk, OnOk};
ghost use Rattle.c_cond.specs.machine.Steps as spec;
ghost use Rattle.c_cond.specs.machine.Steps.{Steps, Gives};

use crate::goal::{Goal, Goals};
use c_words::{CondHead, Dialect, Token};
use name_places::Constants;
use plain_data::{Items, Memory};
use std::alloc::Global;

/// Why a token was not read.
#[derive(Clone, Copy)]
pub enum StepError {
    /// No text goes on so.
    Outside,
    /// Memory ran out.
    Memory,
}

impl From<Memory> for StepError {
    ghost use Rattle.std.specs.Prelude.{◌≡◌};
    ghost use Rattle.c_cond.specs.declared.parser.StepError.TheVariants as error;

    ghost from_gives = { λ _ e. e ≡ error.Memory };

    fn from(_e: Memory) -> StepError {
        StepError::Memory
    }
}

/// What has been read of a text, and what it must still have.
#[derive(Drop)]
pub struct Parser {
    /// The tree so far: each part before the whole that it belongs to.
    pub code: Items<CondHead>,
    pub goals: Goals,
}

impl Parser {
    /// Nothing has been read, and this must come.
    pub fn new(alloc: Global, goal: Goal) -> Result<Parser, Memory>
        ensures { IfOk result (λ parser. parser ≡ spec.at [] (goal ∷ [])) }
    {
        let mut goals = Goals::new(alloc);
        goals.push(goal)?;
        Ok(Parser {
            code: Items::new(alloc),
            goals,
        })
    }

    /// What a goal gives that may be passed over; `false` where it may not.
    fn pass(&mut self, goal: Goal) -> Result<bool, Memory>
        ensures code { IfOk result (λ passed.
            spec.Passes passed self.old.code self.new.code (spec.passed goal)) }
        ensures goals { self.new.goals ≡ self.old.goals }
    {
        match goal {
            Goal::Yield(head) => self.code.push(head)?,
            Goal::More { from: _, to: _ } => {}
            Goal::Else => self.code.push(CondHead::If)?,
            Goal::Statements => self.code.push(CondHead::Nothing)?,
            Goal::Condition => self.code.push(CondHead::Number(1))?,
            _ => return Ok(false),
        }
        Ok(true)
    }

    /// The next token.
    pub fn step(
        &mut self,
        alloc: Global,
        dialect: Dialect,
        constants: &Constants,
        token: &Token,
    ) -> Result<(), StepError>
        ensures { Steps result self.new
            (spec.next dialect constants.now token.now self.old.code self.old.goals) }
    {
        loop {
            let Some(goal) = self.goals.pop() else {
                return Err(StepError::Outside);
            };
            if self.goals.take(alloc, dialect, constants, &goal, token)? {
                return Ok(());
            }
            if !self.pass(goal)? {
                return Err(StepError::Outside);
            }
        }
    }

    /// The tree, where the text ends here.
    pub fn finish(mut self) -> Result<Items<CondHead>, StepError>
        ensures { Gives result (spec.finish self.code self.goals) }
    {
        loop {
            let Some(goal) = self.goals.pop() else {
                return Ok(self.code);
            };
            if !self.pass(goal)? {
                return Err(StepError::Outside);
            }
        }
    }
}
