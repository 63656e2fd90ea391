//! What is to be done for a statement or a value.
ghost use Rattle.std.specs.Prelude.{◌≡◌, OnOk, IfOk};
ghost use Rattle.std.specs.List.{AllByRecursion};
ghost use Rattle.gen_emit.specs.Statements as spec;
ghost use Rattle.gen_emit.specs.machine.Layout as layout;
ghost use Rattle.gen_emit.specs.machine.Plans as plans;
ghost use Rattle.gen_emit.specs.declared.plan.Task.TheVariants as Task;

use crate::draft::Draft;
use crate::layout::{Parts, node_at};
use crate::state::{Op, Step};
use crate::values::extended;
use c_cond::{Call, CondHead};
use c_eval::{Facts, Preds, read};
use plain_data::{Items, Memory};
use rtx_tree::Mode;

/// What is still to be done. Trees are named by the places at which they end.
#[derive(Clone, Copy)]
pub enum Task {
    /// Run a statement.
    Run(usize),
    /// Make a value.
    Make(usize),
    /// Do something to the values.
    Do(Op),
}

/// What stands in the place of a task.
#[derive(Clone, Copy)]
pub enum Plan {
    /// The form fails.
    Fail,
    /// `DONE` is reached.
    Done,
    /// Nothing.
    Nothing,
    /// One task.
    One(Task),
    /// Two tasks, in order.
    Two(Task, Task),
    /// Three tasks, in order.
    Three(Task, Task, Task),
}

/// Statements by their heads, and what they are run with.
#[derive(Drop)]
pub struct Program<'a, P: Preds> {
    /// The heads of the statements, each behind its parts.
    pub heads: &'a [CondHead],
    /// For each head the place at which the tree starts whose last head it is.
    pub starts: &'a [usize],
    /// The facts.
    pub facts: &'a Facts,
    /// The predicates.
    pub preds: &'a P,
}

/// Makes tasks the next ones.
pub fn follow(tasks: &mut Items<Task>, plan: Plan) -> Result<Step, Memory>
    ensures step { IfOk result (λ step. step ≡ plans.step_of plan) }
    ensures tasks { OnOk result (tasks.new ≡ plans.with_tasks (plans.tasks_of plan) tasks.old) }
{
    match plan {
        Plan::Fail => return Ok(Step::Fail),
        Plan::Done => return Ok(Step::Done),
        Plan::Nothing => {}
        Plan::One(first) => tasks.push(first)?,
        Plan::Two(first, second) => {
            tasks.push(second)?;
            tasks.push(first)?;
        }
        Plan::Three(first, second, third) => {
            tasks.push(third)?;
            tasks.push(second)?;
            tasks.push(first)?;
        }
    }
    Ok(Step::Next)
}

/// A number as a constant, where there is one.
fn constant(number: Option<i64>) -> Plan
    ensures { result ≡ plans.constant number }
{
    match number {
        None => Plan::Fail,
        Some(number) => Plan::One(Task::Do(Op::Constant(number))),
    }
}

/// The sign extension of a number's low bits of a mode, where both are there.
fn constant_in(number: Option<i64>, mode: Option<Mode>) -> Plan
    ensures { result ≡ plans.constant_in number mode }
{
    match (number, mode) {
        (Some(number), Some(mode)) => Plan::One(Task::Do(Op::Constant(extended(mode, number)))),
        _ => Plan::Fail,
    }
}

/// The mode that a head is.
fn mode_in(head: &CondHead) -> Option<Mode>
    ensures { result ≡ spec.mode_in head.now }
{
    match head {
        CondHead::Mode(mode) => Some(*mode),
        _ => None,
    }
}

/// A new pseudo register of a mode.
fn fresh(mode: Option<Mode>) -> Plan
    ensures { result ≡ plans.fresh mode }
{
    match mode {
        None => Plan::Fail,
        Some(mode) => Plan::One(Task::Do(Op::Fresh(mode))),
    }
}

/// A value, put into a register of a mode.
fn forced(mode: Option<Mode>, value: usize) -> Plan
    ensures { result ≡ plans.forced mode value }
{
    match mode {
        None => Plan::Fail,
        Some(mode) => Plan::Two(Task::Make(value), Task::Do(Op::Force(mode))),
    }
}

/// The part of a value that a mode has.
fn lowered(mode: Option<Mode>, value: usize) -> Plan
    ensures { result ≡ plans.lowered mode value }
{
    match mode {
        None => Plan::Fail,
        Some(mode) => Plan::Two(Task::Make(value), Task::Do(Op::LowPart(mode))),
    }
}

impl<P: Preds> Program<'_, P> {
    /// The number that an expression is, by the place at which it ends.
    fn number(&self, draft: &Draft, end: usize) -> Option<i64>
        requires { layout.IsEnd self.now.heads.now end }
        ensures { result ≡ spec.number_in self.now.facts.now (P.accepts self.now.preds.now)
            (layout.tree_at self.now.heads.now end) draft.now }
    {
        read(&self.heads[..end], self.facts, &draft.operands, self.preds).number()
    }

    /// The mode that a part is, by the place at which it ends.
    #[tactic(auto, using(crate::proofs::Nodes::mode_at))]
    fn mode(&self, end: usize) -> Option<Mode>
        requires { layout.IsEnd self.now.heads.now end }
        ensures { result ≡ spec.mode_of (layout.tree_at self.now.heads.now end) }
    {
        mode_in(&self.heads[end - 1])
    }

    /// One of two plans, by what a condition is worth.
    fn choose(&self, draft: &Draft, test: usize, first: Plan, second: Plan) -> Plan
        requires { layout.IsEnd self.now.heads.now test }
        ensures { result ≡ plans.chosen
            (spec.number_in self.now.facts.now (P.accepts self.now.preds.now)
            (layout.tree_at self.now.heads.now test) draft.now) first second }
    {
        match self.number(draft, test) {
            None => Plan::Fail,
            Some(0) => second,
            Some(_) => first,
        }
    }

    /// The plan of a statement, by its head and its parts.
    fn plan_to_run(&self, draft: &Draft, head: &CondHead, parts: Parts) -> Plan
        requires { AllByRecursion (layout.IsEnd self.now.heads.now) (layout.ends_of parts) }
        ensures { result ≡ plans.plan_to_run self.now.facts.now
            (P.accepts self.now.preds.now) self.now.heads.now draft.now head.now parts }
    {
        match (head, parts) {
            (CondHead::Nothing, Parts::None) => Plan::Nothing,
            (CondHead::Done, Parts::None) => Plan::Done,
            (CondHead::Assign(number), Parts::One(value)) => {
                Plan::Two(Task::Make(value), Task::Do(Op::Assign(*number)))
            }
            (CondHead::Call(Call::EmitMove), Parts::Two(target, source)) => {
                Plan::Three(Task::Make(target), Task::Make(source), Task::Do(Op::Move))
            }
            (CondHead::Then, Parts::Two(first, rest)) => {
                Plan::Two(Task::Run(first), Task::Run(rest))
            }
            (CondHead::If, Parts::Two(test, body)) => {
                self.choose(draft, test, Plan::One(Task::Run(body)), Plan::Nothing)
            }
            (CondHead::IfElse, Parts::Three(test, body, other)) => {
                let first = Plan::One(Task::Run(body));
                self.choose(draft, test, first, Plan::One(Task::Run(other)))
            }
            _ => Plan::Fail,
        }
    }

    /// What is to be done for a statement.
    pub fn to_run(&self, draft: &Draft, end: usize) -> Plan
        requires starts { layout.AreAllStarts self.now.heads.now self.now.starts.now }
        requires end { layout.IsEnd self.now.heads.now end }
        ensures { plans.IsPlan self.now.facts.now
            (P.accepts self.now.preds.now) self.now.heads.now draft.now (Task.Run end) result }
    {
        let node = node_at(self.heads, self.starts, end);
        self.plan_to_run(draft, node.head, node.parts)
    }

    /// The plan of a value, by its head and its parts.
    fn plan_to_make(&self, draft: &Draft, head: &CondHead, parts: Parts) -> Plan
        requires { AllByRecursion (layout.IsEnd self.now.heads.now) (layout.ends_of parts) }
        ensures { result ≡ plans.plan_to_make self.now.facts.now
            (P.accepts self.now.preds.now) self.now.heads.now draft.now head.now parts }
    {
        match (head, parts) {
            (CondHead::Operand(number), Parts::None) => Plan::One(Task::Do(Op::Copy(*number))),
            (CondHead::Call(Call::GenInt), Parts::One(number)) => {
                constant(self.number(draft, number))
            }
            (CondHead::Call(Call::GenIntMode), Parts::Two(number, mode)) => {
                constant_in(self.number(draft, number), self.mode(mode))
            }
            (CondHead::Call(Call::GenReg), Parts::One(mode)) => fresh(self.mode(mode)),
            (CondHead::Call(Call::ForceReg), Parts::Two(mode, value)) => {
                forced(self.mode(mode), value)
            }
            (CondHead::Call(Call::GenLowpart), Parts::Two(mode, value)) => {
                lowered(self.mode(mode), value)
            }
            _ => Plan::Fail,
        }
    }

    /// What is to be done for a value.
    pub fn to_make(&self, draft: &Draft, end: usize) -> Plan
        requires starts { layout.AreAllStarts self.now.heads.now self.now.starts.now }
        requires end { layout.IsEnd self.now.heads.now end }
        ensures { plans.IsPlan self.now.facts.now
            (P.accepts self.now.preds.now) self.now.heads.now draft.now (Task.Make end) result }
    {
        let node = node_at(self.heads, self.starts, end);
        self.plan_to_make(draft, node.head, node.parts)
    }
}
