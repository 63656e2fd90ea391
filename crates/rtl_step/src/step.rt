//! One step of a function.
ghost use Rattle.std.specs.Prelude.{◌≡◌, ◌+◌, ◌<◌, ◌≤◌, ◌^◌, IfOk, IfSome, OnErr, length};
ghost use Rattle.rtl_step.specs.Call.{event_of, regs_replied};
ghost use Rattle.rtl_step.specs.Effect.{effects_of};
ghost use Rattle.rtl_step.specs.Jump.{jump_of};
ghost use Rattle.rtl_step.specs.Step as spec;

use crate::call::{CallEvent, Calls, RESULT_REGISTER, event_of, regs_replied, result_width};
use crate::effect::{Effect, change_memory, change_registers, effects_of};
use crate::expression::width_of;
use crate::jump::{Way, jump_of};
use crate::regs::Regs;
use bits64::Width;
use plain_data::Memory;
use rtx_tree::{Function, Insn, Kind, Memories, Mode, Ranges, Reply, World, label_place};
use run_memory::write_all;
use std::alloc::Global;

/// The state of a run.
#[derive(Drop)]
pub struct State {
    /// The place in the chain from which the next instruction is taken.
    pub next: u32,
    /// What is known of each register.
    pub regs: Regs,
    /// Memory.
    pub memory: Memories,
    /// The ranges of memory that a caller and called functions see.
    pub visible: Ranges,
    /// The calls so far.
    pub calls: Calls,
}

/// How a step ends.
#[derive(Clone, Copy, Debug)]
pub enum StepEnd {
    /// With the next instruction.
    Next,
    /// With a jump that is taken.
    Jumped,
    /// With a call and its reply.
    Called,
    /// With the function's return.
    Returned,
    /// With a call to which the world has no reply left. The call stands last.
    Asked,
    /// Without a value.
    Undefined,
}

fn plain_step(
    alloc: Global,
    insn: &Insn,
    place: u32,
    state: &mut State,
    world: &World,
) -> Result<StepEnd, Memory>
    requires { place + 1 < 2 ^ 32 }
    ensures step { IfOk result (λ e.
        (e, state.new) ≡ spec.after_effects state.old place
        (effects_of world.now.symbols state.old.regs state.old.memory insn.now.pattern)) }
    ensures err { OnErr result (state.new ≡ state.old) }
{
    let effects = effects_of(
        alloc,
        &world.symbols,
        &state.regs,
        &state.memory,
        &insn.pattern,
    )?;
    let Some(effects) = effects else {
        return Ok(StepEnd::Undefined);
    };
    change_registers(&mut state.regs, effects.as_slice())?;
    change_memory(&mut state.memory, effects.as_slice());
    state.next = place + 1;
    Ok(StepEnd::Next)
}

/// The value of a result, where there is one and it is known.
pub fn result_of(mode: Option<Mode>, regs: &Regs) -> Option<u64>
    ensures { result ≡ spec.result_of mode regs.now }
{
    regs.value(RESULT_REGISTER, width_of(mode?)?)
}

fn has_result(mode: Option<Mode>, regs: &Regs) -> bool
    ensures { result ≡ spec.has_result mode regs.now }
{
    mode.is_none() || result_of(mode, regs).is_some()
}

fn return_step(mode: Option<Mode>, state: &State) -> StepEnd
    ensures { (result, state.now) ≡ spec.after_return mode state.now }
{
    if has_result(mode, &state.regs) {
        StepEnd::Returned
    } else {
        StepEnd::Undefined
    }
}

fn jump_step(f: &Function, insn: &Insn, place: u32, state: &mut State, world: &World) -> StepEnd
    requires place { place + 1 < 2 ^ 32 }
    requires places { length f.now.insns < 2 ^ 32 }
    ensures { (result, state.new) ≡ spec.after_jump f.now state.old place
        (jump_of world.now.symbols state.old.regs state.old.memory insn.now.pattern) }
{
    match jump_of(&world.symbols, &state.regs, &state.memory, &insn.pattern) {
        None => StepEnd::Undefined,
        Some(Way::Leaves) => return_step(f.result, state),
        Some(Way::Falls) => {
            state.next = place + 1;
            StepEnd::Next
        }
        Some(Way::Goes(uid)) => match label_place(f.insns.as_slice(), uid) {
            None => StepEnd::Undefined,
            Some(label) => {
                state.next = label as u32;
                StepEnd::Jumped
            }
        },
    }
}

fn ask(state: &mut State, event: CallEvent) -> Result<StepEnd, Memory>
    ensures step { IfOk result (λ e. (e, state.new) ≡ spec.asked state.old event) }
    ensures err { OnErr result (state.new ≡ state.old) }
{
    state.calls.push(event)?;
    Ok(StepEnd::Asked)
}

fn reply(
    state: &mut State,
    place: u32,
    w: Width,
    event: CallEvent,
    reply: &Reply,
) -> Result<StepEnd, Memory>
    requires { place + 1 < 2 ^ 32 }
    ensures step { IfOk result (λ e.
        (e, state.new) ≡ spec.replied state.old place w event reply.now) }
    ensures err { OnErr result (state.new ≡ state.old) }
{
    let regs = regs_replied(&state.regs, w, reply.value)?;
    state.calls.push(event)?;
    state.next = place + 1;
    state.regs = regs;
    write_all(&mut state.memory, &reply.writes);
    Ok(StepEnd::Called)
}

/// The step of a call whose event is known.
fn answer(
    state: &mut State,
    place: u32,
    w: Width,
    event: CallEvent,
    world: &World,
) -> Result<StepEnd, Memory>
    requires { place + 1 < 2 ^ 32 }
    ensures step { IfOk result (λ e.
        (e, state.new) ≡ spec.after_reply state.old place w event
        (spec.next_reply world.now state.old)) }
    ensures err { OnErr result (state.new ≡ state.old) }
{
    match world.replies.as_slice().get(state.calls.len()) {
        None => ask(state, event),
        Some(found) => reply(state, place, w, event, found),
    }
}

fn call_step(
    alloc: Global,
    insn: &Insn,
    place: u32,
    state: &mut State,
    world: &World,
) -> Result<StepEnd, Memory>
    requires { place + 1 < 2 ^ 32 }
    ensures step { IfOk result (λ e.
        (e, state.new) ≡ spec.after_event world.now state.old place (spec.width_after insn.now)
        (spec.insn_event world.now.symbols state.old insn.now)) }
    ensures err { OnErr result (state.new ≡ state.old) }
{
    let Some(w) = result_width(&insn.pattern) else {
        return Ok(StepEnd::Undefined);
    };
    let event = event_of(
        alloc,
        &world.symbols,
        &state.regs,
        &state.memory,
        &state.visible,
        &insn.pattern,
        insn.uses.as_slice(),
    )?;
    match event {
        None => Ok(StepEnd::Undefined),
        Some(event) => answer(state, place, w, event, world),
    }
}

fn is_mark(kind: Kind) -> bool
    ensures { result ≡ spec.is_mark kind }
{
    matches!(kind, Kind::Label | Kind::Barrier)
}

/// The place of the first instruction from a place on: labels and barriers are passed over.
fn place_from(insns: &[Insn], next: usize) -> usize
    ensures { result ≡ spec.place_from insns.now next }
{
    let mut place = next;
    while let Some(insn) = insns.get(place) {
        if !is_mark(insn.kind) {
            break;
        }
        place += 1;
    }
    place
}

/// The step of an instruction at a place of the chain.
fn act(
    alloc: Global,
    f: &Function,
    insn: &Insn,
    place: u32,
    state: &mut State,
    world: &World,
) -> Result<StepEnd, Memory>
    requires place { place + 1 < 2 ^ 32 }
    requires places { length f.now.insns < 2 ^ 32 }
    ensures step { IfOk result (λ e.
        (e, state.new) ≡ spec.act insn.now.kind world.now f.now insn.now place state.old) }
    ensures err { OnErr result (state.new ≡ state.old) }
{
    match insn.kind {
        Kind::Plain => plain_step(alloc, insn, place, state, world),
        Kind::Jump => Ok(jump_step(f, insn, place, state, world)),
        Kind::Call => call_step(alloc, insn, place, state, world),
        Kind::Label | Kind::Barrier => Ok(StepEnd::Undefined),
    }
}

/// One step of a function. After `Memory` the state is as before, as it is after a step that
/// returns or is undefined.
pub fn step_insn(
    alloc: Global,
    f: &Function,
    state: &mut State,
    world: &World,
) -> Result<StepEnd, Memory>
    requires { length f.now.insns < 2 ^ 32 }
    ensures step { IfOk result (λ e. (e, state.new) ≡ spec.step world.now f.now state.old) }
    ensures err { OnErr result (state.new ≡ state.old) }
{
    let insns = f.insns.as_slice();
    let place = place_from(insns, state.next as usize);
    let Some(insn) = insns.get(place) else {
        return Ok(return_step(f.result, state));
    };
    act(alloc, f, insn, place as u32, state, world)
}
