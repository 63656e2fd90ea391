//! What a call does to a symbolic state.
ghost use Rattle.std.specs.Prelude.{◌≡◌, ◌++◌, map, option_copied, IfOk, OnOk};
ghost use Rattle.rtl_step.specs.Call as calls;
ghost use Rattle.term_tree.specs.View.{tree_of};
ghost use Rattle.sym_state.specs.Views.{call_of, state_of};
ghost use Rattle.sym_insns.specs.Effects as spec;
ghost use Rattle.sym_insns.specs.machine.Making.{AreArgs, IsCall, IsMade, regs_of, stores_of, with_call};

use crate::before::Before;
use crate::effect::add_needs;
use crate::operation::Needs;
use crate::value::{make, read_register};
use bits64::Width;
use plain_data::Memory;
use rtl_step::{call_part, target_of, width_of};
use rtx_tree::{ArgUse, Code, Mode, Rtx};
use std::alloc::Global;
use sym_state::{NeedOf, SymArg, SymArgs, SymCall, SymState, leave_by_call};
use sym_term::TermMaker;
use term_sums::constant_term;
use term_tree::Term;

/// The mode in which the result is taken, where it is.
fn result_mode(x: &Rtx) -> Option<Mode>
    ensures { result ≡ spec.result_mode x.now }
{
    match (x.code, x.kids.as_slice()) {
        (Code::Set, [place, _source]) => Some(place.mode),
        _ => None,
    }
}

/// What there is not needs what nothing meets.
fn nothing(alloc: Global, needs: &mut Needs) -> Result<Term, Memory>
    ensures { IfOk result (λ r. IsMade needs.old needs.new (tree_of r) spec.missing) }
{
    needs.push(NeedOf::Lost {
        reg: 0,
        width: Width::W64,
    })?;
    Ok(constant_term(alloc, Width::W8, 0))
}

/// The address that is called.
fn make_target(
    maker: &mut TermMaker,
    before: &Before,
    target: Option<&Rtx>,
    needs: &mut Needs,
) -> Result<Term, Memory>
    ensures { IfOk result (λ r. IsMade needs.old needs.new (tree_of r)
        (spec.made_target (regs_of before.now) (stores_of before.now)
        (option_copied target.entry))) }
{
    match target {
        None => nothing(before.alloc, needs),
        Some(x) => make(maker, before, x, Width::W64, needs),
    }
}

/// An argument in its mode.
fn make_arg(
    maker: &mut TermMaker,
    before: &Before,
    arg: ArgUse,
    needs: &mut Needs,
) -> Result<Term, Memory>
    ensures { IfOk result (λ r. IsMade needs.old needs.new (tree_of r)
        (spec.made_arg (regs_of before.now) arg)) }
{
    match width_of(arg.mode) {
        None => nothing(before.alloc, needs),
        Some(w) => read_register(maker, before, u64::from(arg.reg), w, needs),
    }
}

/// The arguments, in order.
fn make_args(
    maker: &mut TermMaker,
    before: &Before,
    uses: &[ArgUse],
    needs: &mut Needs,
) -> Result<SymArgs, Memory>
    ensures { IfOk result (λ args. AreArgs needs.old needs.new args
        (spec.args_of (regs_of before.now) uses.now)
        (spec.args_needs (regs_of before.now) uses.now)) }
{
    let mut args = SymArgs::new(before.alloc);
    for arg in uses {
        let value = make_arg(maker, before, *arg, needs)?;
        args.push(SymArg {
            reg: arg.reg,
            value,
        })?;
    }
    Ok(args)
}

/// What is called.
fn make_call(
    maker: &mut TermMaker,
    before: &Before,
    x: &Rtx,
    uses: &[ArgUse],
    needs: &mut Needs,
) -> Result<SymCall, Memory>
    ensures { IfOk result (λ call. IsCall needs.old needs.new call
        (spec.made_target (regs_of before.now) (stores_of before.now)
        (calls.target_of (calls.call_part x.now))) (spec.result_mode x.now)
        (spec.args_of (regs_of before.now) uses.now)
        (spec.args_needs (regs_of before.now) uses.now)) }
{
    let target = make_target(maker, before, target_of(call_part(x)), needs)?;
    let args = make_args(maker, before, uses, needs)?;
    Ok(SymCall {
        target,
        result: result_mode(x),
        args,
    })
}

/// Notes what is called.
fn note_call(state: &mut SymState, call: SymCall)
    ensures { state_of state.new ≡ record (state_of state.old) { call = Some (call_of call) } }
{
    state.call = Some(call);
}

/// Makes a call: registers that it need not preserve are unset.
fn leave(state: &mut SymState, call: SymCall) -> Result<(), Memory>
    ensures { OnOk result (state_of state.new ≡ with_call (call_of call) (state_of state.old)) }
{
    leave_by_call(&mut state.regs)?;
    note_call(state, call);
    Ok(())
}

/// Runs a call at a place.
pub fn run_call(
    maker: &mut TermMaker,
    alloc: Global,
    state: &mut SymState,
    index: u32,
    x: &Rtx,
    uses: &[ArgUse],
) -> Result<(), Memory>
    ensures { OnOk result (state_of state.new
        ≡ spec.after_call index x.now uses.now (state_of state.old)) }
{
    let mut needs = Needs::new(alloc);
    let before = Before {
        alloc,
        regs: &state.regs,
        stores: &state.stores,
    };
    let call = make_call(maker, &before, x, uses, &mut needs)?;
    leave(state, call)?;
    add_needs(&mut state.needs, index, needs)
}
