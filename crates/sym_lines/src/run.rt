//! The run of a list of lines.
ghost use Rattle.std.specs.Prelude.{◌≡◌, ◌<◌, ◌^◌, length, Some, None, if◌then◌else◌, IfOk, OnOk};
ghost use Rattle.rv_text.specs.Lines.{action_of};
ghost use Rattle.sym_state.specs.Views.{state_of};
ghost use Rattle.sym_state.specs.Answers.{Gives};
ghost use Rattle.sym_state.specs.State.{ran, start};
ghost use Rattle.sym_lines.specs.Run as spec;

use crate::label::label_uid;
use crate::step::{Step, act};
use plain_data::Memory;
use rtx_tree::MOST_NODES;
use rv_text::{Action, Line};
use std::alloc::Global;
use sym_state::{SymRefusal, SymState};
use sym_term::TermMaker;

fn is_end(lines: &[Line]) -> bool
    ensures { result ≡ spec.is_end lines.now }
{
    lines.is_empty()
}

/// Whether an action can be compared, with these lines behind it.
fn fits_action(action: Option<Action>, rest: &[Line]) -> bool
    ensures { result ≡ spec.fits_action action rest.now }
{
    match action {
        None => false,
        Some(Action::Return { .. }) => false,
        Some(Action::Branch { .. } | Action::Jump | Action::Call | Action::CallRegister) => {
            is_end(rest)
        }
        Some(
            Action::Compute { .. }
            | Action::Load { .. }
            | Action::Store { .. }
            | Action::SymbolAddress,
        ) => true,
    }
}

fn fits(line: &Line, rest: &[Line]) -> bool
    ensures { result ≡ spec.fits_action (action_of line.now) rest.now }
{
    fits_action(line.action(), rest)
}

/// The place of the first line that can't be compared.
fn bad_line(lines: &[Line]) -> Option<u32>
    requires { length lines.now < 2 ^ 32 }
    ensures { result ≡ spec.bad_line lines.now }
{
    for (at, line) in lines.iter().enumerate() {
        if !fits(line, &lines[at + 1..]) {
            return Some(at as u32);
        }
    }
    None
}

/// Makes the step of the line of a function at a place. What is no line of the table does nothing.
pub fn run_line_on(
    maker: &mut TermMaker,
    alloc: Global,
    state: &mut SymState,
    function: u32,
    index: u32,
    line: &Line,
) -> Result<(), Memory>
    ensures { OnOk result (state_of state.new
        ≡ spec.after function index line.now (state_of state.old)) }
{
    match line.action() {
        Some(action) => {
            let uid = label_uid(function, line.target.bytes());
            let step = Step {
                alloc,
                index,
                uid,
                line,
            };
            act(maker, state, &step, action)
        }
        None => Ok(()),
    }
}

/// Runs lines until a state is too large, and tells whether none was.
fn run_on(
    maker: &mut TermMaker,
    alloc: Global,
    state: &mut SymState,
    function: u32,
    lines: &[Line],
) -> Result<bool, Memory>
    requires { length lines.now < 2 ^ 32 }
    ensures { IfOk result (λ small. spec.run_from function 0 lines.now (state_of state.old)
        ≡ (if small then Some (state_of state.new) else None)) }
{
    for (at, line) in lines.iter().enumerate() {
        run_line_on(maker, alloc, state, function, at as u32, line)?;
        if !state.is_within() {
            return Ok(false);
        }
    }
    Ok(true)
}

/// Runs lines from the start.
fn run_all(alloc: Global, function: u32, lines: &[Line]) -> Result<SymState, SymRefusal>
    requires { length lines.now < 2 ^ 32 }
    ensures { Gives result (ran None (spec.run_from function 0 lines.now start)) }
{
    let mut maker = TermMaker::new(alloc);
    let mut state = SymState::new(alloc);
    if run_on(&mut maker, alloc, &mut state, function, lines)? {
        Ok(state)
    } else {
        Err(SymRefusal::Size {
            size: MOST_NODES + 1,
        })
    }
}

/// The symbolic state after lines of a function. Whether they can be compared is looked at first.
pub fn run_sym_lines(alloc: Global, function: u32, lines: &[Line]) -> Result<SymState, SymRefusal>
    requires { length lines.now < 2 ^ 32 }
    ensures { Gives result (spec.run function lines.now) }
{
    match bad_line(lines) {
        Some(index) => Err(SymRefusal::Shape { index }),
        None => run_all(alloc, function, lines),
    }
}
