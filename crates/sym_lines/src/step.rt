//! What a line does to a symbolic state.
ghost use Rattle.std.specs.Prelude.{◌≡◌, ◌+◌, ◌++◌, ◌≤◌, [], ◌∷◌, map, None, IfOk, OnOk};
ghost use Rattle.bits64.specs.declared.Width.TheVariants.{W8, W64};
ghost use Rattle.rv_text.specs.declared.action.Action.TheVariants as actions;
ghost use Rattle.term_tree.specs.View.{tree_of};
ghost use Rattle.term_mean.specs.Sums as sums;
ghost use Rattle.term_mean.specs.Compared as comparisons;
ghost use Rattle.sym_term.specs.Views.{store_of};
ghost use Rattle.sym_state.specs.Views.{changed_of, arg_of, state_of};
ghost use Rattle.sym_lines.specs.Compute as operations;
ghost use Rattle.sym_lines.specs.Step as spec;
ghost use Rattle.sym_lines.specs.machine.Parts as parts;

use crate::compute::{Computation, computed, extended};
use crate::source::{
    address, need_access, need_register, need_sources, need_store, need_symbol, register, source,
    stored,
};
use bits64::{Relation, Width};
use plain_data::{Items, Memory};
use rtx_tree::Name;
use rv_text::{Action, Extension, Line, Source};
use std::alloc::Global;
use sym_state::{
    SymArg, SymArgs, SymCall, SymJump, SymRegs, SymState, leave_by_call, own_symbol, put,
};
use sym_term::{SymStore, SymStores, TermMaker};
use term_sums::constant_term;
use term_tree::{Head, Measured, Term};

/// The step of a line.
#[derive(Drop)]
pub(crate) struct Step<'a> {
    /// Where terms are made.
    pub alloc: Global,
    /// The line's place.
    pub index: u32,
    /// The uid for which its label stands, if it stands for one.
    pub uid: Option<u32>,
    /// The line.
    pub line: &'a Line,
}

/// What a computing line writes.
fn value_of(
    maker: &mut TermMaker,
    regs: &SymRegs,
    step: &Step,
    computation: Computation,
) -> Result<Term, Memory>
    ensures { IfOk result (λ r. tree_of r ≡ operations.computed computation.operator computation.width
        (spec.source (map changed_of regs.now) step.now.line.now computation.left)
        (spec.source (map changed_of regs.now) step.now.line.now computation.right)) }
{
    let a = source(maker, step.alloc, regs, step.line, computation.left)?;
    let b = source(maker, step.alloc, regs, step.line, computation.right)?;
    let Computation {
        operator,
        width,
        ..
    } = computation;
    computed(maker, step.alloc, operator, width, &a, &b)
}

/// Computes, and sets `rd`.
fn compute(
    maker: &mut TermMaker,
    state: &mut SymState,
    step: &Step,
    computation: Computation,
) -> Result<(), Memory>
    ensures { OnOk result (state_of state.new
        ≡ spec.act (actions.Compute computation.operator computation.width computation.left computation.right) step.now.index None
        step.now.line.now (state_of state.old)) }
{
    let term = value_of(maker, &state.regs, step, computation)?;
    need_sources(
        &mut state.needs,
        step.index,
        &state.regs,
        step.line,
        computation.left,
        computation.right,
    )?;
    put(&mut state.regs, u64::from(step.line.rd), Some(term))
}

/// What stands at an address behind all stores so far.
#[tactic(auto, using(crate::proofs::Needs::stores_counted))]
fn loaded(
    maker: &mut TermMaker,
    alloc: Global,
    stores: &SymStores,
    w: Width,
    at: Term,
) -> Result<Term, Memory>
    ensures { IfOk result (λ r. tree_of r ≡ spec.loaded (map store_of stores.now) w (tree_of at)) }
{
    let mut parts = Vec::new(alloc);
    parts.push(at)?;
    let count = stores.len() as u64;
    maker.built(stores, Head::Load, w, count, Name::empty(alloc), parts)
}

/// What a load from an address writes.
fn loaded_in_64(
    maker: &mut TermMaker,
    alloc: Global,
    stores: &SymStores,
    w: Width,
    extension: Extension,
    at: &Term,
) -> Result<Term, Memory>
    ensures { IfOk result (λ r. tree_of r
        ≡ spec.extended extension w (spec.loaded (map store_of stores.now) w (tree_of at.now))) }
{
    let term = loaded(maker, alloc, stores, w, at.copy(alloc)?)?;
    extended(maker, alloc, extension, w, term)
}

/// Loads, and sets `rd`.
fn load(
    maker: &mut TermMaker,
    state: &mut SymState,
    step: &Step,
    w: Width,
    extension: Extension,
) -> Result<(), Memory>
    ensures { OnOk result (state_of state.new
        ≡ spec.act (actions.Load w extension) step.now.index None step.now.line.now
        (state_of state.old)) }
{
    let at = address(maker, step.alloc, &state.regs, step.line)?;
    let term = loaded_in_64(maker, step.alloc, &state.stores, w, extension, &at)?;
    need_access(&mut state.needs, step.index, &state.regs, step.line, at, w)?;
    put(&mut state.regs, u64::from(step.line.rd), Some(term))
}

/// Puts a store behind those so far.
#[tactic(auto, using(crate::proofs::Needs::stores_more))]
fn push_store(stores: &mut SymStores, address: Term, value: Term) -> Result<(), Memory>
    ensures { OnOk result (map store_of stores.new
        ≡ map store_of stores.old ++ (tree_of address, tree_of value) ∷ []) }
{
    stores.push(SymStore {
        address: Measured::of(address),
        value: Measured::of(value),
    })
}

/// Stores `rt`.
fn store(maker: &mut TermMaker, state: &mut SymState, step: &Step, w: Width) -> Result<(), Memory>
    ensures { OnOk result (state_of state.new
        ≡ spec.act (actions.Store w) step.now.index None step.now.line.now (state_of state.old)) }
{
    let at = address(maker, step.alloc, &state.regs, step.line)?;
    let value = stored(maker, step.alloc, &state.regs, step.line, w)?;
    need_store(
        &mut state.needs,
        step.index,
        &state.regs,
        step.line,
        at.copy(step.alloc)?,
        w,
    )?;
    push_store(&mut state.stores, at, value)
}

/// Sets `rd` to the address of the line's symbol.
fn set_symbol_address(state: &mut SymState, step: &Step) -> Result<(), Memory>
    ensures { OnOk result (state_of state.new
        ≡ spec.act actions.SymbolAddress step.now.index None step.now.line.now
        (state_of state.old)) }
{
    let term = own_symbol(step.alloc, &step.line.target)?;
    need_symbol(step.alloc, &mut state.needs, step.index, step.line)?;
    put(&mut state.regs, u64::from(step.line.rd), Some(term))
}

/// The condition of a branch.
fn condition(
    maker: &mut TermMaker,
    regs: &SymRegs,
    step: &Step,
    relation: Relation,
    left: Source,
    right: Source,
) -> Result<Term, Memory>
    ensures { IfOk result (λ r. tree_of r
        ≡ comparisons.compared relation W64
        (spec.source (map changed_of regs.now) step.now.line.now left)
        (spec.source (map changed_of regs.now) step.now.line.now right)) }
{
    let a = source(maker, step.alloc, regs, step.line, left)?;
    let b = source(maker, step.alloc, regs, step.line, right)?;
    maker.compared(relation, Width::W64, a, b)
}

/// Jumps where the relation holds.
fn branch(
    maker: &mut TermMaker,
    state: &mut SymState,
    step: &Step,
    relation: Relation,
    left: Source,
    right: Source,
) -> Result<(), Memory>
    ensures { OnOk result (state_of state.new
        ≡ spec.act (actions.Branch relation left right) step.now.index step.now.uid
        step.now.line.now (state_of state.old)) }
{
    let condition = condition(maker, &state.regs, step, relation, left, right)?;
    need_sources(
        &mut state.needs,
        step.index,
        &state.regs,
        step.line,
        left,
        right,
    )?;
    state.jump = SymJump {
        condition,
        target: step.uid,
    };
    Ok(())
}

/// Jumps.
#[tactic(auto, using(crate::proofs::Needs::nothing_more))]
fn jump(state: &mut SymState, step: &Step)
    ensures { state_of state.new
        ≡ spec.jumps step.now.index step.now.uid (sums.constant W8 1) [] (state_of state.old) }
{
    state.jump = SymJump {
        condition: constant_term(step.alloc, Width::W8, 1),
        target: step.uid,
    };
}

fn arg(maker: &mut TermMaker, alloc: Global, regs: &SymRegs, reg: u8) -> Result<SymArg, Memory>
    ensures { IfOk result (λ a. arg_of a
        ≡ record { reg = reg; value = spec.register (map changed_of regs.now) reg }) }
{
    Ok(SymArg {
        reg,
        value: register(maker, alloc, regs, reg)?,
    })
}

/// The registers from `first` on, `count` of them, as they stand.
fn args_from(
    maker: &mut TermMaker,
    alloc: Global,
    regs: &SymRegs,
    count: u8,
    first: u8,
) -> Result<SymArgs, Memory>
    requires { first + count ≤ 255 }
    ensures { IfOk result (λ args. map arg_of args
        ≡ spec.args_from count first (map changed_of regs.now)) }
{
    let mut args = Items::new(alloc);
    for reg in first..first + count {
        args.push(arg(maker, alloc, regs, reg)?)?;
    }
    Ok(args)
}

/// Calls an address: `a0` to `a7` are handed over as they stand.
fn call(
    maker: &mut TermMaker,
    alloc: Global,
    state: &mut SymState,
    target: Term,
) -> Result<(), Memory>
    ensures { OnOk result (state_of state.new ≡ parts.called (tree_of target)
        (state_of state.old)) }
{
    let args = args_from(maker, alloc, &state.regs, 8, 10)?;
    leave_by_call(&mut state.regs)?;
    state.call = Some(SymCall {
        target,
        result: None,
        args,
    });
    Ok(())
}

/// Calls the line's symbol.
fn call_symbol(maker: &mut TermMaker, state: &mut SymState, step: &Step) -> Result<(), Memory>
    ensures { OnOk result (state_of state.new
        ≡ spec.act actions.Call step.now.index None step.now.line.now (state_of state.old)) }
{
    let target = own_symbol(step.alloc, &step.line.target)?;
    need_symbol(step.alloc, &mut state.needs, step.index, step.line)?;
    call(maker, step.alloc, state, target)
}

/// Calls the address that `rs` holds.
fn call_register(maker: &mut TermMaker, state: &mut SymState, step: &Step) -> Result<(), Memory>
    ensures { OnOk result (state_of state.new
        ≡ spec.act actions.CallRegister step.now.index None step.now.line.now
        (state_of state.old)) }
{
    let target = register(maker, step.alloc, &state.regs, step.line.rs)?;
    need_register(&mut state.needs, step.index, &state.regs, step.line.rs)?;
    call(maker, step.alloc, state, target)
}

/// Does an action of a line.
pub(crate) fn act(
    maker: &mut TermMaker,
    state: &mut SymState,
    step: &Step,
    action: Action,
) -> Result<(), Memory>
    ensures { OnOk result (state_of state.new
        ≡ spec.act action step.now.index step.now.uid step.now.line.now (state_of state.old)) }
{
    match action {
        Action::Compute {
            operator,
            width,
            left,
            right,
        } => {
            let computation = Computation {
                operator,
                width,
                left,
                right,
            };
            compute(maker, state, step, computation)
        }
        Action::Load { width, extension } => load(maker, state, step, width, extension),
        Action::Store { width } => store(maker, state, step, width),
        Action::SymbolAddress => set_symbol_address(state, step),
        Action::Branch {
            relation,
            left,
            right,
        } => branch(maker, state, step, relation, left, right),
        Action::Jump => {
            jump(state, step);
            Ok(())
        }
        Action::Call => call_symbol(maker, state, step),
        Action::CallRegister => call_register(maker, state, step),
        Action::Return { .. } => Ok(()),
    }
}
