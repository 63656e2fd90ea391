//! What stands while values are made, and what is done to it.
ghost use Rattle.std.specs.Prelude.{Bool, IfOk};
ghost use Rattle.gen_emit.specs.machine.Tasks as spec;
ghost use Rattle.gen_emit.specs.declared.state.Op.TheVariants as Op;

use crate::draft::Draft;
use crate::values::low_part;
use md_match::copy_of;
use plain_data::{Items, Memory};
use rtx_tree::{Mode, Rtx};
use std::alloc::Global;

/// What is done to values.
#[derive(Clone, Copy)]
pub enum Op {
    /// Make the value of an operand.
    Copy(u32),
    /// Make a constant.
    Constant(i64),
    /// Make a new pseudo register of a mode.
    Fresh(Mode),
    /// Give an operand the last value.
    Assign(u32),
    /// Emit a move of the last value to the one before it.
    Move,
    /// Put the last value into a register of a mode, where it is none.
    Force(Mode),
    /// Take the part of the last value that a mode has.
    LowPart(Mode),
}

/// How a step ends.
#[derive(Clone, Copy)]
pub enum Step {
    /// The next task is to be done.
    Next,
    /// The form fails.
    Fail,
    /// `DONE` was reached.
    Done,
}

/// The values that were made and not yet taken, the last at the end, and the draft.
#[derive(Drop)]
pub struct State {
    /// The values.
    pub values: Items<Rtx>,
    /// The draft.
    pub draft: Draft,
}

impl State {
    /// Makes a value the last, where there is one; else the form fails.
    fn give(&mut self, value: Option<Rtx>) -> Result<Step, Memory>
        ensures { IfOk result (λ step. spec.MakesLast value self.old step self.new) }
    {
        let Some(value) = value else {
            return Ok(Step::Fail);
        };
        self.values.push(value)?;
        Ok(Step::Next)
    }

    fn copy_operand(&mut self, alloc: Global, number: u32) -> Result<Step, Memory>
        ensures { (may : Bool) →
            IfOk result (λ step. spec.Does may (Op.Copy number) self.old step self.new) }
    {
        let value = copy_of(alloc, self.draft.operands.get(number as usize))?;
        self.give(value)
    }

    fn fresh(&mut self, alloc: Global, may: bool, mode: Mode) -> Result<Step, Memory>
        ensures { IfOk result (λ step. spec.Does may (Op.Fresh mode) self.old step self.new) }
    {
        let value = self.draft.fresh(alloc, may, mode)?;
        self.give(value)
    }

    fn assign(&mut self, number: u32) -> Result<Step, Memory>
        ensures { (may : Bool) →
            IfOk result (λ step. spec.Does may (Op.Assign number) self.old step self.new) }
    {
        let Some(value) = self.values.pop() else {
            return Ok(Step::Fail);
        };
        self.draft.assign(number, value)?;
        Ok(Step::Next)
    }

    fn emit_move(&mut self, alloc: Global) -> Result<Step, Memory>
        ensures { (may : Bool) → IfOk result (λ step.
            spec.Does may Op.Move self.old step self.new) }
    {
        let Some(source) = self.values.pop() else {
            return Ok(Step::Fail);
        };
        let Some(target) = self.values.pop() else {
            return Ok(Step::Fail);
        };
        self.draft.emit_move(alloc, target, source)?;
        Ok(Step::Next)
    }

    fn force(&mut self, alloc: Global, may: bool, mode: Mode) -> Result<Step, Memory>
        ensures { IfOk result (λ step. spec.Does may (Op.Force mode) self.old step self.new) }
    {
        let Some(value) = self.values.pop() else {
            return Ok(Step::Fail);
        };
        let value = self.draft.force(alloc, may, mode, value)?;
        self.give(value)
    }

    fn take_part(&mut self, alloc: Global, mode: Mode) -> Result<Step, Memory>
        ensures { (may : Bool) →
            IfOk result (λ step. spec.Does may (Op.LowPart mode) self.old step self.new) }
    {
        let Some(value) = self.values.pop() else {
            return Ok(Step::Fail);
        };
        let value = low_part(alloc, mode, value)?;
        self.give(value)
    }

    /// Does one thing to the values and the draft.
    pub fn apply(&mut self, alloc: Global, may: bool, op: Op) -> Result<Step, Memory>
        ensures { IfOk result (λ step. spec.Does may op self.old step self.new) }
    {
        match op {
            Op::Copy(number) => self.copy_operand(alloc, number),
            Op::Constant(number) => self.give(Some(Rtx::const_int(alloc, number))),
            Op::Fresh(mode) => self.fresh(alloc, may, mode),
            Op::Assign(number) => self.assign(number),
            Op::Move => self.emit_move(alloc),
            Op::Force(mode) => self.force(alloc, may, mode),
            Op::LowPart(mode) => self.take_part(alloc, mode),
        }
    }
}
