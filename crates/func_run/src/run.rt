//! The run of a function.
ghost use Rattle.std.specs.Prelude.{◌≡◌, ◌<◌, ◌^◌, IfOk, OnOk, length};
ghost use Rattle.run_memory.specs.RunMemory.{visible};
ghost use Rattle.rtl_step.specs.Step.{result_of as result_spec};
ghost use Rattle.func_run.specs.Run as spec;
ghost use Rattle.func_run.specs.Standing as standing;
ghost use Rattle.func_run.specs.Run.{AreCut, TakesEnough};

use crate::outcome::{Kept, Outcome, Standing};
use bits64::Width;
use plain_data::{Items, Memory};
use rtl_step::{Known, Regs, State, StepEnd, result_of, step_insn};
use rtx_tree::{Function, Memories, Ranges, Start, World};
use run_memory::visible_part;
use std::alloc::Global;

/// Sets registers, each with its 64 bits.
fn set_all(regs: &mut Regs, entries: &[(u64, u64)]) -> Result<(), Memory>
    ensures { OnOk result (regs.new ≡ spec.with_all entries.now regs.old) }
{
    for entry in entries {
        let known = Known {
            width: Width::W64,
            value: entry.1,
        };
        regs.set(entry.0, known)?;
    }
    Ok(())
}

fn entry_values(start: &Start) -> [(u64, u64); 23]
    ensures { result ≡ spec.entry_values start.now }
{
    let args = &start.args;
    let saved = &start.saved;
    [
        (10, args[0]),
        (11, args[1]),
        (12, args[2]),
        (13, args[3]),
        (14, args[4]),
        (15, args[5]),
        (16, args[6]),
        (17, args[7]),
        (2, start.sp),
        (1, start.ra),
        (8, saved[0]),
        (9, saved[1]),
        (18, saved[2]),
        (19, saved[3]),
        (20, saved[4]),
        (21, saved[5]),
        (22, saved[6]),
        (23, saved[7]),
        (24, saved[8]),
        (25, saved[9]),
        (26, saved[10]),
        (27, saved[11]),
        (32, start.vars),
    ]
}

fn entry_regs(alloc: Global, start: &Start) -> Result<Regs, Memory>
    ensures { IfOk result (λ regs. regs ≡ spec.entry_regs start.now) }
{
    let mut regs = Regs::new(alloc);
    set_all(&mut regs, entry_values(start).as_slice())?;
    Ok(regs)
}

/// The state at entry.
fn entry_of(alloc: Global, start: &Start) -> Result<State, Memory>
    ensures { IfOk result (λ state. state ≡ spec.entry_of start.now) }
{
    let regs = entry_regs(alloc, start)?;
    let memory = start.memory.copy(alloc)?;
    let visible = Items::from_slice(alloc, start.visible.as_slice())?;
    Ok(State {
        next: 0,
        regs,
        memory,
        visible,
        calls: Items::new(alloc),
    })
}

fn values_of(alloc: Global, regs: &Regs, numbers: &[u64]) -> Result<Kept, Memory>
    ensures { IfOk result (λ values. values ≡ spec.values_of regs.now numbers.now) }
{
    let mut values = Items::new(alloc);
    for number in numbers {
        values.push(regs.value(*number, Width::W64))?;
    }
    Ok(values)
}

fn kept_of(alloc: Global, regs: &Regs) -> Result<Kept, Memory>
    ensures { IfOk result (λ kept. kept ≡ spec.kept_of regs.now) }
{
    let numbers = [2, 1, 8, 9, 18, 19, 20, 21, 22, 23, 24, 25, 26, 27];
    values_of(alloc, regs, numbers.as_slice())
}

/// What a function that returns leaves, but for its calls.
#[derive(Drop)]
struct Left {
    value: Option<u64>,
    memory: Memories,
    kept: Kept,
}

fn left_of(alloc: Global, f: &Function, state: &State) -> Result<Left, Memory>
    ensures value { IfOk result (λ left. left.value ≡
        result_spec f.now.result state.now.regs) }
    ensures memory { IfOk result (λ left. left.memory ≡
        visible state.now.visible state.now.memory) }
    ensures kept { IfOk result (λ left. left.kept ≡ spec.kept_of state.now.regs) }
{
    let memory = visible_part(alloc, &state.memory, &state.visible)?;
    let kept = kept_of(alloc, &state.regs)?;
    let value = result_of(f.result, &state.regs);
    Ok(Left {
        value,
        memory,
        kept,
    })
}

fn returned(alloc: Global, f: &Function, state: State) -> Result<Outcome, Memory>
    ensures { IfOk result (λ outcome. outcome ≡ spec.returned f.now state) }
{
    let left = left_of(alloc, f, &state)?;
    Ok(Outcome::Returned {
        value: left.value,
        memory: left.memory,
        calls: state.calls,
        kept: left.kept,
    })
}

fn goes_on(end: StepEnd) -> bool
    ensures { result ≡ spec.goes_on end }
{
    matches!(end, StepEnd::Next | StepEnd::Jumped | StepEnd::Called)
}

fn ended(alloc: Global, f: &Function, end: StepEnd, state: State) -> Result<Outcome, Memory>
    ensures { IfOk result (λ outcome. outcome ≡ spec.ended f.now end state) }
{
    match end {
        StepEnd::Returned => returned(alloc, f, state),
        StepEnd::Asked => Ok(Outcome::Asked { calls: state.calls }),
        _ => Ok(Outcome::Undefined),
    }
}

/// The outcome of `n` steps from a state.
fn run_from(
    alloc: Global,
    f: &Function,
    mut state: State,
    world: &World,
    n: u64,
) -> Result<Outcome, Memory>
    requires { length f.now.insns < 2 ^ 32 }
    ensures { IfOk result (λ outcome. outcome ≡ spec.run world.now f.now n state) }
{
    for _i in 0..n {
        let end = step_insn(alloc, f, &mut state, world)?;
        if !goes_on(end) {
            return ended(alloc, f, end, state);
        }
    }
    Ok(Outcome::Running { calls: state.calls })
}

/// The outcome of `n` steps of a function from its start in a world.
pub fn run_function(
    alloc: Global,
    f: &Function,
    start: &Start,
    world: &World,
    n: u64,
) -> Result<Outcome, Memory>
    requires { length f.now.insns < 2 ^ 32 }
    ensures run { IfOk result (λ outcome. outcome ≡ spec.run_of f.now start.now world.now n) }
    // An endless run takes jumps and makes calls without end, and a run is cut in two.
    ensures taken { TakesEnough }
    ensures cut { AreCut }
{
    let state = entry_of(alloc, start)?;
    run_from(alloc, f, state, world, n)
}

/// How a run stands that ended in a state in which nothing is visible, where the caller sees some
/// ranges.
fn stood(
    alloc: Global,
    f: &Function,
    end: StepEnd,
    state: &State,
    ranges: &Ranges,
) -> Result<Standing, Memory>
    ensures { IfOk result (λ s. s ≡ standing.standing_of (spec.ended f.now end
        (record state.now { visible = ranges.now }))) }
{
    match end {
        StepEnd::Returned => Ok(Standing::Returned {
            value: result_of(f.result, &state.regs),
            memory: visible_part(alloc, &state.memory, ranges)?,
            calls: state.calls.len() as u64,
        }),
        StepEnd::Asked => Ok(Standing::Asked {
            calls: state.calls.len() as u64,
        }),
        _ => Ok(Standing::Undefined),
    }
}

/// How `n` steps of a function from its start in a world stand, the calls counted. What called
/// functions see is not kept: nothing is visible in the states of the run.
pub fn standing_after(
    alloc: Global,
    f: &Function,
    start: &Start,
    world: &World,
    n: u64,
) -> Result<Standing, Memory>
    requires { length f.now.insns < 2 ^ 32 }
    ensures { IfOk result (λ s. s ≡ standing.standing_of (spec.run_of f.now start.now world.now n)) }
{
    let mut state = entry_of(alloc, start)?;
    state.visible = Items::new(alloc);
    for _i in 0..n {
        let end = step_insn(alloc, f, &mut state, world)?;
        if !goes_on(end) {
            return stood(alloc, f, end, &state, &start.visible);
        }
    }
    Ok(Standing::Running {
        calls: state.calls.len() as u64,
    })
}
