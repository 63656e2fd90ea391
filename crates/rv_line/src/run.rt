//! The run of a list of lines and labels.
ghost use Rattle.std.specs.Prelude.{◌≡◌, IfOk, option_map};
ghost use Rattle.rv_line.specs.Run as spec;
ghost use Rattle.rv_line.specs.Standing as standing;
ghost use Rattle.rv_line.specs.machine.Turns.{running_view, Turns, after_line_seen, turn_seen};

use crate::label::{LabelledItems, next_line};
use crate::outcome::{CodeCall, CodeCalls, CodeOutcome, CodeStanding};
use crate::registers::entry_regs;
use crate::state::{LineEnd, RvState};
use crate::step::step_line;
use plain_data::{Items, Memory};
use rtx_tree::{Ranges, Reply, Start, World};
use run_memory::visible_part;
use rv_text::{CodeItem, Line};
use std::alloc::Global;
use std::mem;

/// Where a run stands.
#[derive(Drop)]
pub struct CodeState<'a> {
    /// The items that follow.
    pub rest: &'a [CodeItem],
    /// The machine.
    pub machine: RvState,
    /// The replies that are left.
    pub replies: &'a [Reply],
    /// The calls so far.
    pub calls: CodeCalls,
}

/// What a run goes through: the code, the memory that the caller sees, and the memory that the
/// functions it calls see.
#[derive(Clone, Copy)]
struct Setting<'s, 'a> {
    code: &'s LabelledItems<'a>,
    ranges: &'s Ranges,
    seen: &'s Ranges,
}

/// The state at entry.
fn entry(alloc: Global, start: &Start) -> Result<RvState, Memory>
    ensures { IfOk result (λ state. state ≡ spec.entry start.now) }
{
    Ok(RvState {
        regs: entry_regs(start),
        entry_ra: start.ra,
        memory: start.memory.copy(alloc)?,
    })
}

/// The call of a function at an address.
fn call_of(
    alloc: Global,
    ranges: &Ranges,
    target: u64,
    machine: &RvState,
) -> Result<CodeCall, Memory>
    ensures { IfOk result (λ call. call ≡ spec.call_of ranges.now target machine.now) }
{
    Ok(CodeCall {
        target,
        args: machine.args(),
        memory: visible_part(alloc, &machine.memory, ranges)?,
    })
}

impl<'a> CodeState<'a> {
    /// The calls, taken out at the end of the run.
    fn take_calls(&mut self, alloc: Global) -> CodeCalls
        ensures { result ≡ self.old.calls }
    {
        mem::replace(&mut self.calls, Items::new(alloc))
    }

    /// Goes on behind a call, if it has a reply.
    fn take_reply(&mut self, alloc: Global, rest: &'a [CodeItem]) -> Option<CodeOutcome>
        ensures { Turns result (running_view self.new)
            (spec.replied self.old.replies.now rest.entry.now (running_view self.old)) }
    {
        match self.replies {
            [] => Some(CodeOutcome::Asked {
                calls: self.take_calls(alloc),
            }),
            [reply, replies @ ..] => {
                self.machine.take_reply(reply);
                self.rest = rest;
                self.replies = replies;
                None
            }
        }
    }

    /// Makes a call.
    fn call(
        &mut self,
        alloc: Global,
        ranges: &Ranges,
        target: u64,
        rest: &'a [CodeItem],
    ) -> Result<Option<CodeOutcome>, Memory>
        ensures { IfOk result (λ ended.
            Turns ended (running_view self.new) (spec.called ranges.now target rest.entry.now
            (running_view self.old))) }
    {
        let call = call_of(alloc, ranges, target, &self.machine)?;
        self.calls.push(call)?;
        Ok(self.take_reply(alloc, rest))
    }

    /// Goes on behind a label, if it stands there.
    fn jump(&mut self, behind: Option<&'a [CodeItem]>) -> Option<CodeOutcome>
        ensures { Turns result (running_view self.new) (spec.jumped (option_map (λ rest.
            rest.now) behind.entry) (running_view self.old)) }
    {
        match behind {
            None => Some(CodeOutcome::Stuck),
            Some(rest) => {
                self.rest = rest;
                None
            }
        }
    }

    /// Returns.
    fn returned(&mut self, alloc: Global, ranges: &Ranges) -> Result<CodeOutcome, Memory>
        ensures { IfOk result (λ outcome.
            outcome ≡ spec.returned ranges.now (running_view self.old)) }
    {
        Ok(CodeOutcome::Returned {
            value: self.machine.register(10),
            memory: visible_part(alloc, &self.machine.memory, ranges)?,
            kept: self.machine.saved(),
            calls: self.take_calls(alloc),
        })
    }

    /// Goes on from a line that was done.
    fn after_line(
        &mut self,
        alloc: Global,
        end: LineEnd,
        setting: &Setting<'_, 'a>,
        line: &Line,
        rest: &'a [CodeItem],
    ) -> Result<Option<CodeOutcome>, Memory>
        ensures { IfOk result (λ ended.
            Turns ended (running_view self.new)
            (after_line_seen end setting.now.seen.now setting.now.ranges.now setting.now.code.now
            line.now rest.entry.now (running_view self.old))) }
    {
        match end {
            LineEnd::Next => {
                self.rest = rest;
                Ok(None)
            }
            LineEnd::Jumped => Ok(self.jump(setting.code.behind_label(line.target.bytes()))),
            LineEnd::Called { target } => self.call(alloc, setting.seen, target, rest),
            LineEnd::Returned => Ok(Some(self.returned(alloc, setting.ranges)?)),
            LineEnd::Stuck => Ok(Some(CodeOutcome::Stuck)),
        }
    }

    /// Does the next line.
    fn turn(
        &mut self,
        alloc: Global,
        world: &World,
        setting: &Setting<'_, 'a>,
    ) -> Result<Option<CodeOutcome>, Memory>
        ensures { IfOk result (λ ended.
            Turns ended (running_view self.new) (turn_seen world.now setting.now.seen.now
            setting.now.ranges.now setting.now.code.now (running_view self.old))) }
    {
        let Some((line, rest)) = next_line(self.rest) else {
            return Ok(Some(CodeOutcome::Stuck));
        };
        let end = step_line(line, &mut self.machine, world);
        self.after_line(alloc, end, setting, line, rest)
    }
}

/// Runs at most `k` lines of the items, from the first on, and says what that comes to. Labels take
/// no step.
pub fn run_lines(
    alloc: Global,
    lines: &[CodeItem],
    start: &Start,
    world: &World,
    k: u64,
) -> Result<CodeOutcome, Memory>
    ensures { IfOk result (λ outcome. outcome ≡ spec.run lines.now start.now world.now k) }
{
    let code = LabelledItems::of(alloc, lines)?;
    let mut state = CodeState {
        rest: lines,
        machine: entry(alloc, start)?,
        replies: world.replies.as_slice(),
        calls: Items::new(alloc),
    };
    let setting = Setting {
        code: &code,
        ranges: &start.visible,
        seen: &start.visible,
    };
    for _ in 0..k {
        if let Some(outcome) = state.turn(alloc, world, &setting)? {
            return Ok(outcome);
        }
    }
    Ok(CodeOutcome::Running { calls: state.calls })
}

/// An outcome with its calls counted.
fn counted(outcome: CodeOutcome) -> CodeStanding
    ensures { result ≡ standing.standing_of outcome }
{
    match outcome {
        CodeOutcome::Stuck => CodeStanding::Stuck,
        CodeOutcome::Running { calls } => CodeStanding::Running {
            calls: calls.len() as u64,
        },
        CodeOutcome::Asked { calls } => CodeStanding::Asked {
            calls: calls.len() as u64,
        },
        CodeOutcome::Returned {
            value,
            memory,
            calls,
            ..
        } => CodeStanding::Returned {
            value,
            memory,
            calls: calls.len() as u64,
        },
    }
}

/// What at most `k` lines of the items come to, from the first on, the calls counted. What called
/// functions see is not kept.
pub fn lines_standing(
    alloc: Global,
    lines: &[CodeItem],
    start: &Start,
    world: &World,
    k: u64,
) -> Result<CodeStanding, Memory>
    ensures { IfOk result (λ s. s ≡ standing.standing_of (spec.run lines.now start.now world.now k)) }
{
    let code = LabelledItems::of(alloc, lines)?;
    let none = Items::new(alloc);
    let mut state = CodeState {
        rest: lines,
        machine: entry(alloc, start)?,
        replies: world.replies.as_slice(),
        calls: Items::new(alloc),
    };
    let setting = Setting {
        code: &code,
        ranges: &start.visible,
        seen: &none,
    };
    for _ in 0..k {
        if let Some(outcome) = state.turn(alloc, world, &setting)? {
            return Ok(counted(outcome));
        }
    }
    Ok(CodeStanding::Running {
        calls: state.calls.len() as u64,
    })
}
