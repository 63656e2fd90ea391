//! Values of expressions, and steps and runs of functions.
ghost use Rattle.std.specs.Prelude.{◌<◌, ◌^◌, length};

use crate::memory::memory_of;
use crate::parts::{function_in, halves, number, numbers_in};
use bits64::Width;
use case_text::Told;
use func_run::{Outcome, run_function};
use lisp_read::rtx_of_tree;
use plain_data::{Items, Memory};
use rtl_step::{Known, Regs, State, StepEnd, step_insn, value, width_of};
use rtx_tree::{Function, Memories, Mode, Name, Reply, Rtx, Start, SymbolAt, World};
use std::alloc::Global;
use text_cases::tree_in;

/// The width of a mode, or 64 bits.
fn width(mode: &str) -> Width {
    let mode = Mode::named(mode.as_bytes()).unwrap_or(Mode::DI);
    width_of(mode).unwrap_or(Width::W64)
}

/// A value: `5` in 64 bits, `5:QI` in 8.
fn known(word: &str) -> Option<Known> {
    let (value, mode) = word.split_once(":").unwrap_or((word, ""));
    let Some(value) = number(value) else {
        return None;
    };
    Some(Known {
        width: width(mode),
        value,
    })
}

/// Registers with values, from a1 on: `5` in 64 bits, `5:QI` in 8.
fn registers(alloc: Global, values: &str) -> Option<Regs> {
    let mut regs = Regs::new(alloc);
    let mut reg = 11;
    for word in values.split_whitespace() {
        let Some(value) = known(word) else {
            return None;
        };
        if regs.set(reg, value).is_err() {
            return None;
        }
        reg = 12;
    }
    Some(regs)
}

/// The expression that a text writes.
fn expression_in(alloc: Global, text: &str) -> Option<Rtx> {
    match tree_in(alloc, text.as_bytes()) {
        Some(tree) => rtx_of_tree(alloc, &tree).ok(),
        None => None,
    }
}

fn show_value(alloc: Global, regs: &Regs, x: &Rtx, width: Width, told: &mut Told) {
    let memory = Memories::new(alloc);
    told.debug(&value(&Items::new(alloc), regs, &memory, x, width));
}

/// Appends what is read of an expression in the width of a mode, with the values of a1 and a2.
fn tell_value(alloc: Global, input: &[u8], told: &mut Told) {
    if let Some((mode, rest)) = halves(input)
        && let Some((text, values)) = halves(rest.as_bytes())
        && let Some(x) = expression_in(alloc, text)
        && let Some(regs) = registers(alloc, values)
    {
        show_value(alloc, &regs, &x, width(mode), told);
    } else {
        told.fail();
    }
}

fn symbols(alloc: Global) -> Result<Items<SymbolAt>, Memory> {
    let mut symbols = Items::new(alloc);
    symbols.push(SymbolAt {
        name: Name::of(alloc, b"h")?,
        address: 4096,
    })?;
    Ok(symbols)
}

/// Where `h` is at 4096, with these replies.
fn world(alloc: Global, values: &[u64]) -> Result<World, Memory> {
    let mut replies = Items::new(alloc);
    for value in values {
        replies.push(Reply {
            value: *value,
            writes: Items::new(alloc),
        })?;
    }
    Ok(World {
        symbols: symbols(alloc)?,
        replies,
    })
}

/// The text of a function with an instruction behind a label and a barrier, which returns SI.
fn text_of(alloc: Global, insn: &[u8]) -> Option<Vec<u8>> {
    let mut text = Told::new(alloc);
    text.text("(function \"f\" (crtl (return_rtx (reg:SI a0))) (insn-chain (clabel 9) (cbarrier) ");
    text.push(insn);
    text.text("))");
    text.whole()
}

/// A state in which a1 is 3 and a2 is 4, and four bytes of memory stand from 8 on.
fn fresh_state(alloc: Global) -> Option<State> {
    if let Some(regs) = registers(alloc, "3 4")
        && let Ok(memory) = memory_of(alloc, &[8, 1, 9, 1, 10, 1, 11, 1])
    {
        Some(State {
            next: 0,
            regs,
            memory,
            visible: Items::new(alloc),
            calls: Items::new(alloc),
        })
    } else {
        None
    }
}

/// Appends how a step ends, what is next, and what a0, a1 and a2 are then.
fn show_state(end: &StepEnd, state: &State, told: &mut Told) {
    told.debug(end);
    told.text(" ");
    told.show(state.next);
    for reg in 10..13 {
        told.text(" ");
        told.debug(&state.regs.value(reg, Width::W64));
    }
}

/// The end of a step of a function where a call is answered by 7.
fn step_end(alloc: Global, f: &Function, state: &mut State) -> Result<StepEnd, Memory>
    requires { length f.now.insns < 2 ^ 32 }
{
    let world = world(alloc, &[7])?;
    step_insn(alloc, f, state, &world)
}

/// Appends how a step of a function ends where a call is answered by 7, what is next, and what a0,
/// a1 and a2 are then.
fn show_step(alloc: Global, f: &Function, told: &mut Told)
    requires { length f.now.insns < 2 ^ 32 }
{
    if let Some(mut state) = fresh_state(alloc)
        && let Ok(end) = step_end(alloc, f, &mut state)
    {
        show_state(&end, &state, told);
    } else {
        told.fail();
    }
}

/// Appends how one step of an instruction behind a label and a barrier ends, what is next, and what
/// a0, a1 and a2 are then.
fn tell_step(alloc: Global, input: &[u8], told: &mut Told) {
    if let Some(text) = text_of(alloc, input)
        && let Some(f) = function_in(alloc, text.as_slice())
    {
        show_step(alloc, &f, told);
    } else {
        told.fail();
    }
}

fn start(alloc: Global) -> Start {
    Start {
        args: [5, 0, 0, 0, 0, 0, 0, 0],
        sp: 65536,
        vars: 65536,
        ra: 0,
        saved: [1; 12],
        memory: Memories::new(alloc),
        visible: Items::new(alloc),
    }
}

fn show_outcome(outcome: &Outcome, told: &mut Told) {
    match outcome {
        Outcome::Undefined => told.text("undefined"),
        Outcome::Running { calls } => {
            told.text("running ");
            told.show(calls.len());
        }
        Outcome::Asked { calls } => {
            told.text("asked ");
            told.show(calls.len());
        }
        Outcome::Returned { value, calls, .. } => {
            told.debug(value);
            told.text(" ");
            told.show(calls.len());
        }
    }
}

/// How so many steps of a function with the argument 5 stand, with these replies.
fn outcome_of(alloc: Global, f: &Function, steps: u64, replies: &[u64]) -> Result<Outcome, Memory>
    requires { length f.now.insns < 2 ^ 32 }
{
    let world = world(alloc, replies)?;
    run_function(alloc, f, &start(alloc), &world, steps)
}

/// Appends how so many steps of a function with the argument 5 stand, its value and its calls. The
/// replies stand behind the number of steps.
fn tell_run(alloc: Global, given: &[u8], input: &[u8], told: &mut Told) {
    if let Some(words) = numbers_in(alloc, input)
        && let [steps, replies @ ..] = words.as_slice()
        && let Some(f) = function_in(alloc, given)
        && let Ok(outcome) = outcome_of(alloc, &f, *steps, replies)
    {
        show_outcome(&outcome, told);
    } else {
        told.fail();
    }
}

/// Tells what comes of an input. Whether it is a table of steps.
pub fn answer(alloc: Global, table: &str, given: &[u8], input: &[u8], told: &mut Told) -> bool {
    match table {
        "values" => tell_value(alloc, input, told),
        "steps" => tell_step(alloc, input, told),
        "runs" => tell_run(alloc, given, input, told),
        _ => return false,
    }
    true
}
