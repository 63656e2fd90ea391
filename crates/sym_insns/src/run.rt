//! The run of a list of instructions.
ghost use Rattle.std.specs.Prelude.{◌≡◌, ◌<◌, ◌^◌, length, option_map, IfOk, OnOk};
ghost use Rattle.sym_state.specs.State.{start};
ghost use Rattle.sym_state.specs.Answers.{Gives};
ghost use Rattle.sym_state.specs.Views.{state_of};
ghost use Rattle.sym_insns.specs.Run as spec;

use crate::call::run_call;
use crate::effect::run_plain;
use crate::jump::run_jump;
use crate::shape::bad_insn;
use plain_data::Memory;
use rtx_tree::{Insn, Kind, MOST_NODES};
use std::alloc::Global;
use sym_state::{SymRefusal, SymState};
use sym_term::TermMaker;

/// Runs an instruction at a place. After `Memory` the state may be anything.
pub fn run_on(
    maker: &mut TermMaker,
    alloc: Global,
    state: &mut SymState,
    index: u32,
    insn: &Insn,
) -> Result<(), Memory>
    ensures { OnOk result (state_of state.new ≡ spec.after index insn.now (state_of state.old)) }
{
    match insn.kind {
        Kind::Plain => run_plain(maker, alloc, state, index, &insn.pattern),
        Kind::Jump => run_jump(maker, alloc, state, index, &insn.pattern),
        Kind::Call => run_call(
            maker,
            alloc,
            state,
            index,
            &insn.pattern,
            insn.uses.as_slice(),
        ),
        Kind::Label | Kind::Barrier => Ok(()),
    }
}

/// The state after all instructions, or `None` where a term of a state that is met is too large.
fn run_all(alloc: Global, insns: &[Insn]) -> Result<Option<SymState>, Memory>
    requires { length insns.now < 2 ^ 32 }
    ensures { IfOk result (λ s. option_map state_of s ≡ spec.run_from 0 insns.now start) }
{
    let mut maker = TermMaker::new(alloc);
    let mut state = SymState::new(alloc);
    for (i, insn) in insns.iter().enumerate() {
        run_on(&mut maker, alloc, &mut state, i as u32, insn)?;
        if !state.is_within() {
            return Ok(None);
        }
    }
    Ok(Some(state))
}

/// What instructions come to, from the first to the last.
///
/// # Errors
///
/// `Shape` with the place of the first instruction that can't be compared. `Size` where a term of
/// a state that is met has more than 1,048,576 nodes or 2,000 levels. `Memory` where memory ran out.
pub fn run_rtl(alloc: Global, insns: &[Insn]) -> Result<SymState, SymRefusal>
    requires { length insns.now < 2 ^ 32 }
    ensures { Gives result (spec.run insns.now) }
{
    if let Some(index) = bad_insn(insns) {
        return Err(SymRefusal::Shape { index });
    }
    match run_all(alloc, insns)? {
        Some(state) => Ok(state),
        None => Err(SymRefusal::Size {
            size: MOST_NODES + 1,
        }),
    }
}
