//! Runs statements by a stack of what is still to be done, so that nesting has no limit.
ghost use Rattle.std.specs.Prelude.{◌≡◌, IfOk};
ghost use Rattle.gen_emit.specs.Statements as spec;
ghost use Rattle.gen_emit.specs.machine.Layout as layout;
ghost use Rattle.gen_emit.specs.machine.Plans as plans;

use crate::draft::{Draft, Ended};
use crate::layout::starts_of;
use crate::plan::{Program, Task, follow};
use crate::state::{State, Step};
use c_cond::{CondHead, Prep};
use c_eval::{Facts, Preds};
use plain_data::{Items, Memory};
use std::alloc::Global;

impl<P: Preds> Program<'_, P> {
    /// Does a task that was the next.
    fn step(
        &self,
        alloc: Global,
        tasks: &mut Items<Task>,
        state: &mut State,
        task: Task,
    ) -> Result<Step, Memory>
        requires starts { layout.AreAllStarts self.now.heads.now self.now.starts.now }
        requires task { plans.IsTask self.now.heads.now task }
        requires tasks { plans.AreTasks self.now.heads.now tasks.old }
        ensures { IfOk result (λ step.
            plans.Steps self.now.facts.now
            (P.accepts self.now.preds.now) self.now.heads.now task tasks.old state.old step
            tasks.new state.new) }
    {
        match task {
            Task::Run(end) => follow(tasks, self.to_run(&state.draft, end)),
            Task::Make(end) => follow(tasks, self.to_make(&state.draft, end)),
            Task::Do(op) => state.apply(alloc, self.facts.new_pseudos, op),
        }
    }

    /// Does all tasks.
    fn finish(
        &self,
        alloc: Global,
        mut tasks: Items<Task>,
        mut state: State,
    ) -> Result<Option<Ended>, Memory>
        requires starts { layout.AreAllStarts self.now.heads.now self.now.starts.now }
        requires tasks { plans.AreTasks self.now.heads.now tasks }
        ensures { IfOk result (λ r. r ≡ plans.outcome self.now.facts.now
            (P.accepts self.now.preds.now) self.now.heads.now tasks state) }
    {
        while let Some(task) = tasks.pop() {
            match self.step(alloc, &mut tasks, &mut state, task)? {
                Step::Next => {}
                Step::Fail => return Ok(None),
                Step::Done => return Ok(Some(Ended::Done(state.draft))),
            }
        }
        Ok(Some(Ended::Through(state.draft)))
    }
}

/// The task of running heads, where there are any.
fn first_tasks(alloc: Global, heads: &[CondHead]) -> Result<Items<Task>, Memory>
    ensures { IfOk result (λ tasks. tasks ≡ plans.first_tasks heads.now) }
{
    let mut tasks = Items::new(alloc);
    if !heads.is_empty() {
        tasks.push(Task::Run(heads.len()))?;
    }
    Ok(tasks)
}

/// Runs statements on a draft: how they end, or `None` where they fail.
pub fn run<P: Preds>(
    alloc: Global,
    statements: &Prep,
    preds: &P,
    facts: &Facts,
    draft: Draft,
) -> Result<Option<Ended>, Memory>
    ensures { IfOk result (λ r. r ≡
        (spec.meaning facts.now (P.accepts preds.now) statements.now).run draft) }
{
    let heads = statements.heads();
    let starts = starts_of(alloc, heads)?;
    let program = Program {
        heads,
        starts: starts.as_slice(),
        facts,
        preds,
    };
    let state = State {
        values: Items::new(alloc),
        draft,
    };
    program.finish(alloc, first_tasks(alloc, heads)?, state)
}
