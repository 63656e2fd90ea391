//! One line.
ghost use Rattle.std.specs.Prelude.{◌≡◌, Some, option_map};
ghost use Rattle.bits64.specs.declared.Width.TheVariants.{W64};
ghost use Rattle.bits64.specs.Operators as operators;
ghost use Rattle.rv_line.specs.Step as spec;

use crate::state::{LineEnd, RvState};
use bits64::{Operator, Relation, Width, add, sext, zext};
use rtx_tree::World;
use run_memory::{load, store, symbol_address};
use rv_text::{Action, Extension, Line, Source};

/// What an operator of a width writes.
fn computed(operator: Operator, w: Width, a: u64, b: u64) -> u64
    ensures { result ≡ spec.computed operator w a b }
{
    sext(operator.number(w, a, b), w)
}

/// What a computing line writes.
fn value_of(
    state: &RvState,
    line: &Line,
    operator: Operator,
    w: Width,
    left: Source,
    right: Source,
) -> Option<u64>
    ensures { result ≡ spec.of_both (spec.computed operator w)
        (spec.source_value state.now line.now left) (spec.source_value state.now line.now right) }
{
    let a = state.source(line, left)?;
    let b = state.source(line, right)?;
    Some(computed(operator, w, a, b))
}

/// Whether a branch's relation holds.
fn holds(
    state: &RvState,
    line: &Line,
    relation: Relation,
    left: Source,
    right: Source,
) -> Option<bool>
    ensures { result ≡ spec.of_both (operators.holds relation W64)
        (spec.source_value state.now line.now left) (spec.source_value state.now line.now right) }
{
    let a = state.source(line, left)?;
    let b = state.source(line, right)?;
    Some(relation.holds(Width::W64, a, b))
}

/// The address of a line's access.
fn place_of(state: &RvState, line: &Line) -> Option<u64>
    ensures { result ≡ spec.place_of state.now line.now }
{
    let base = state.register(line.rs)?;
    Some(add(base, line.imm.cast_unsigned(), Width::W64))
}

/// A loaded number in 64 bits.
fn extended(extension: Extension, w: Width, a: u64) -> u64
    ensures { result ≡ spec.extended extension w a }
{
    match extension {
        Extension::Sign => sext(a, w),
        Extension::Zero => zext(a, w),
    }
}

/// What a load writes.
fn loaded(state: &RvState, line: &Line, w: Width, extension: Extension) -> Option<u64>
    ensures { result ≡ spec.loaded w extension state.now line.now }
{
    let address = place_of(state, line)?;
    let value = load(&state.memory, w, address)?;
    Some(extended(extension, w, value))
}

/// Writes `rd`.
fn set_rd(state: &mut RvState, line: &Line, value: Option<u64>) -> LineEnd
    ensures { (result, state.new) ≡ spec.set_rd state.old line.now value }
{
    match value {
        None => LineEnd::Stuck,
        Some(value) => {
            state.set_register(line.rd, value);
            LineEnd::Next
        }
    }
}

/// Stores `rt`.
fn put_rt(state: &mut RvState, line: &Line, w: Width) -> LineEnd
    ensures { (result, state.new) ≡ spec.set_memory state.old (spec.stored w state.old line.now) }
{
    let (Some(address), Some(value)) = (place_of(state, line), state.register(line.rt)) else {
        return LineEnd::Stuck;
    };
    if store(&mut state.memory, w, address, value) {
        LineEnd::Next
    } else {
        LineEnd::Stuck
    }
}

fn branch_end(holds: Option<bool>) -> LineEnd
    ensures { result ≡ spec.branch_end holds }
{
    match holds {
        None => LineEnd::Stuck,
        Some(true) => LineEnd::Jumped,
        Some(false) => LineEnd::Next,
    }
}

fn call_end(target: Option<u64>) -> LineEnd
    ensures { result ≡ spec.call_end target }
{
    match target {
        None => LineEnd::Stuck,
        Some(target) => LineEnd::Called { target },
    }
}

fn register_call_end(target: Option<u64>) -> LineEnd
    ensures { result ≡ spec.register_call_end target }
{
    match target {
        Some(target) if target % 4 == 0 => LineEnd::Called { target },
        _ => LineEnd::Stuck,
    }
}

fn return_end(entry_ra: u64, target: Option<u64>) -> LineEnd
    ensures { result ≡ spec.return_end entry_ra target }
{
    match target {
        Some(target) if target == entry_ra => LineEnd::Returned,
        _ => LineEnd::Stuck,
    }
}

/// What an action does.
fn act(action: Action, line: &Line, state: &mut RvState, world: &World) -> LineEnd
    ensures { (result, state.new) ≡ spec.act action world.now line.now state.old }
{
    match action {
        Action::Compute {
            operator,
            width,
            left,
            right,
        } => {
            let value = value_of(state, line, operator, width, left, right);
            set_rd(state, line, value)
        }
        Action::Load { width, extension } => {
            let value = loaded(state, line, width, extension);
            set_rd(state, line, value)
        }
        Action::Store { width } => put_rt(state, line, width),
        Action::SymbolAddress => set_rd(
            state,
            line,
            symbol_address(&world.symbols, line.target.bytes()),
        ),
        Action::Branch {
            relation,
            left,
            right,
        } => branch_end(holds(state, line, relation, left, right)),
        Action::Jump => LineEnd::Jumped,
        Action::Call => call_end(symbol_address(&world.symbols, line.target.bytes())),
        Action::CallRegister => register_call_end(state.register(line.rs)),
        Action::Return { through } => return_end(state.entry_ra, state.source(line, through)),
    }
}

/// Does one line. Where it is stuck, the state is as before. What a call does to the registers is
/// not done here, and neither is the label of a jump looked up.
pub fn step_line(line: &Line, state: &mut RvState, world: &World) -> LineEnd
    ensures { (result, state.new) ≡ spec.step world.now line.now state.old }
{
    match line.action() {
        None => LineEnd::Stuck,
        Some(action) => act(action, line, state, world),
    }
}
