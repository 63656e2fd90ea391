//! Reading and changing registers.
ghost use Rattle.std.specs.Prelude.{ℕ, ◌≡◌, ◌+◌, ◌≤◌, [], ◌∷◌, map, length, slice_get, option_map, IfOk, OnOk, MatchOption};
ghost use Rattle.term_tree.specs.Tree.{Tree};
ghost use Rattle.term_tree.specs.View.{tree_of};
ghost use Rattle.sym_state.specs.Registers as spec;
ghost use Rattle.sym_state.specs.machine.Places as places;
ghost use Rattle.sym_state.specs.Views as views;
ghost use Rattle.sym_state.specs.Views.{changed_of, state_of};

use crate::state::{NeedOf, SymReg, SymRegs};
use crate::terms::own_register;
use bits64::Width;
use plain_data::{Items, Memory};
use rtx_tree::{HARD_REGS, reg_call_used};
use std::alloc::Global;
use sym_term::TermMaker;
use term_sums::constant_term;
use term_tree::{Measured, Term, is_narrower};

/// The register among those that were changed, where it is one of them.
pub fn held(regs: &[SymReg], reg: u64) -> Option<&SymReg>
    ensures { option_map (λ r. (changed_of r.now).value) result ≡
        spec.held (map changed_of regs.entry.now) reg }
{
    for changed in regs {
        if changed.reg == reg {
            return Some(changed);
        }
    }
    None
}

/// The low bits of what a register was left with, or of what it held at first.
fn term_left(
    maker: &mut TermMaker,
    alloc: Global,
    left: &Option<Measured>,
    reg: u64,
    w: Width,
) -> Result<Term, Memory>
    ensures { IfOk result (λ term.
        tree_of term ≡ places.term_left (option_map tree_of left.now) reg w) }
{
    match left {
        Some(left) => {
            let term = left.term();
            if is_narrower(term.width(), w) {
                maker.cut(w, &own_register(alloc, reg))
            } else {
                maker.cut(w, term)
            }
        }
        None => maker.cut(w, &own_register(alloc, reg)),
    }
}

/// The low bits of a register that is not 0.
fn term_held(
    maker: &mut TermMaker,
    alloc: Global,
    found: Option<&SymReg>,
    reg: u64,
    w: Width,
) -> Result<Term, Memory>
    ensures { IfOk result (λ term.
        tree_of term ≡ spec.term_held (option_map (λ r.
        (changed_of r.now).value) found.entry) reg w) }
{
    match found {
        Some(changed) => term_left(maker, alloc, &changed.value, reg, w),
        None => maker.cut(w, &own_register(alloc, reg)),
    }
}

/// The low bits of a register.
pub fn read(
    maker: &mut TermMaker,
    alloc: Global,
    regs: &SymRegs,
    reg: u64,
    w: Width,
) -> Result<Term, Memory>
    ensures { IfOk result (λ term. tree_of term ≡ spec.read (map changed_of regs.now) reg w) }
{
    if reg == 0 {
        Ok(constant_term(alloc, w, 0))
    } else {
        term_held(maker, alloc, held(regs.as_slice(), reg), reg, w)
    }
}

/// What is needed of a register that was left with a term, or unset.
fn need_left(left: &Option<Measured>, reg: u64, w: Width) -> Option<NeedOf>
    ensures { places.listed (option_map views.need_of result) ≡
        spec.need_of (Some (option_map tree_of left.now)) reg w }
{
    match left {
        Some(left) => {
            if is_narrower(left.term().width(), w) {
                Some(NeedOf::Lost { reg, width: w })
            } else {
                None
            }
        }
        None => Some(NeedOf::Lost { reg, width: w }),
    }
}

/// What reading the low bits of a register needs.
pub fn read_need(regs: &SymRegs, reg: u64, w: Width) -> Option<NeedOf>
    ensures { places.listed (option_map views.need_of result) ≡
        spec.read_needs (map changed_of regs.now) reg w }
{
    if reg == 0 {
        return None;
    }
    match held(regs.as_slice(), reg) {
        Some(changed) => need_left(&changed.value, reg, w),
        None => Some(NeedOf::Register { reg, width: w }),
    }
}

/// The place of a register among those that were changed: the first that is not below it.
fn place_of(regs: &[SymReg], reg: u64) -> usize
    ensures at { result ≡ places.place_of (map changed_of regs.now) reg }
    ensures within { result ≤ length regs.now }
{
    for (at, changed) in regs.iter().enumerate() {
        if changed.reg >= reg {
            return at;
        }
    }
    regs.len()
}

/// Whether a register stands at a place.
fn is_at(regs: &[SymReg], at: usize, reg: u64) -> bool
    ensures { result ≡ places.is_register (slice_get (map changed_of regs.now) at) reg }
{
    match regs.get(at) {
        Some(changed) => changed.reg == reg,
        None => false,
    }
}

/// Puts a register at a place, in place of itself where it stands there.
#[tactic(auto, using(crate::proofs::Placing::changes_seen))]
fn put_at(regs: &mut SymRegs, at: usize, reg: u64, value: Option<Measured>) -> Result<(), Memory>
    requires { at ≤ length regs.old }
    ensures { OnOk result (map changed_of regs.new ≡ places.put_at (map changed_of regs.old) at reg
        (option_map tree_of value)) }
{
    if is_at(regs.as_slice(), at, reg) {
        regs.replace(at, SymReg { reg, value });
        Ok(())
    } else {
        regs.insert(at, SymReg { reg, value })
    }
}

/// A term that may be missing, measured.
fn measured(value: Option<Term>) -> Option<Measured>
    ensures { result ≡ value }
{
    match value {
        None => None,
        Some(term) => Some(Measured::of(term)),
    }
}

/// Sets a register to the known bits of a term, or unsets it. Register zero keeps nothing.
#[tactic(auto, using(crate::proofs::Placing::puts))]
pub fn put(regs: &mut SymRegs, reg: u64, value: Option<Term>) -> Result<(), Memory>
    ensures { OnOk result (map changed_of regs.new ≡ spec.put (map changed_of regs.old) reg
        (option_map tree_of value)) }
{
    if reg == 0 {
        return Ok(());
    }
    let at = place_of(regs.as_slice(), reg);
    put_at(regs, at, reg, measured(value))
}

/// Unsets a register that a call need not preserve; any other stays.
fn leave(regs: &mut SymRegs, reg: u8) -> Result<(), Memory>
    ensures { OnOk result (map changed_of regs.new ≡ places.left_at reg (map changed_of regs.old)) }
{
    if reg_call_used(reg) {
        put(regs, u64::from(reg), None)
    } else {
        Ok(())
    }
}

/// Unsets the registers that a call need not preserve.
#[tactic(auto, using(crate::proofs::Placing::leaves))]
pub fn leave_by_call(regs: &mut SymRegs) -> Result<(), Memory>
    ensures { OnOk result (map changed_of regs.new ≡ spec.left_by_call (map changed_of regs.old)) }
{
    for reg in 0..HARD_REGS {
        leave(regs, reg)?;
    }
    Ok(())
}
