//! What a jump does to a symbolic state.
ghost use Rattle.std.specs.Prelude.{◌≡◌, OnOk};
ghost use Rattle.rtx_tree.specs.declared.tree.Rtx.{out-Rtx};
ghost use Rattle.term_tree.specs.View.{tree_of};
ghost use Rattle.sym_state.specs.Views.{state_of};
ghost use Rattle.sym_insns.specs.Effects as spec;
ghost use Rattle.sym_insns.specs.Value.{made_of};
ghost use Rattle.sym_insns.specs.machine.Making.{with_jump};

use crate::before::Before;
use crate::effect::add_needs;
use crate::operation::Needs;
use crate::value::make;
use bits64::Width;
use plain_data::Memory;
use rtx_tree::{Code, Rtx};
use std::alloc::Global;
use sym_state::{SymJump, SymState};
use sym_term::TermMaker;
use term_sums::constant_term;
use term_tree::Term;

/// The uid of a label, which has 32 bits.
fn target_uid(label: &Rtx) -> Option<u32>
    ensures { result ≡ spec.target_uid label.now }
{
    u32::try_from(label.label_uid()?).ok()
}

/// Notes where it leads.
fn lead(state: &mut SymState, condition: Term, label: &Rtx)
    ensures { state_of state.new ≡ with_jump (tree_of condition) label.now (state_of state.old) }
{
    state.jump = SymJump {
        condition,
        target: target_uid(label),
    };
}

/// A jump that a test decides.
fn branch(
    maker: &mut TermMaker,
    alloc: Global,
    state: &mut SymState,
    index: u32,
    test: &Rtx,
    label: &Rtx,
) -> Result<(), Memory>
    ensures { OnOk result (state_of state.new
        ≡ spec.jumps index
        (made_of (state_of state.old).regs (state_of state.old).stores test.now Width.W8)
        label.now (state_of state.old)) }
{
    let mut needs = Needs::new(alloc);
    let before = Before {
        alloc,
        regs: &state.regs,
        stores: &state.stores,
    };
    let condition = make(maker, &before, test, Width::W8, &mut needs)?;
    lead(state, condition, label);
    add_needs(&mut state.needs, index, needs)
}

/// The expression to which the pc is set.
fn jump_source(x: &Rtx) -> &Rtx
    ensures { result.now ≡ spec.jump_source (out-Rtx x.now).kids x.now }
{
    match x.kids.as_slice() {
        [_place, source] => source,
        _ => x,
    }
}

/// The label of what the pc is set to.
fn jump_label(source: &Rtx) -> &Rtx
    ensures { result.now ≡ spec.jump_label source.now }
{
    match (source.code, source.kids.as_slice()) {
        (Code::IfThenElse, [_test, label, _other]) => label,
        _ => source,
    }
}

/// Whether the uid of a jump's label has 32 bits.
pub fn has_target(x: &Rtx) -> bool
    ensures { result ≡ spec.has_target x.now }
{
    target_uid(jump_label(jump_source(x))).is_some()
}

/// Runs a jump by what the pc is set to.
fn run_source(
    maker: &mut TermMaker,
    alloc: Global,
    state: &mut SymState,
    index: u32,
    source: &Rtx,
) -> Result<(), Memory>
    ensures { OnOk result (state_of state.new
        ≡ spec.jump_by (out-Rtx source.now).code (out-Rtx source.now).kids source.now index
        (state_of state.old)) }
{
    match (source.code, source.kids.as_slice()) {
        (Code::IfThenElse, [test, label, _other]) => {
            branch(maker, alloc, state, index, test, label)
        }
        _ => {
            lead(state, constant_term(alloc, Width::W8, 1), source);
            Ok(())
        }
    }
}

/// Runs a jump at a place.
pub fn run_jump(
    maker: &mut TermMaker,
    alloc: Global,
    state: &mut SymState,
    index: u32,
    x: &Rtx,
) -> Result<(), Memory>
    ensures { OnOk result (state_of state.new ≡ spec.after_jump index x.now (state_of state.old)) }
{
    run_source(maker, alloc, state, index, jump_source(x))
}
