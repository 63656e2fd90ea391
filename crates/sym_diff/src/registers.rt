//! The registers that are live behind.
ghost use Rattle.std.specs.Prelude.{◌≡◌, [], map, is_some, option_map, IfOk};
ghost use Rattle.rtx_tree.specs.Registers.{is_call_used as is_call_used_spec};
ghost use Rattle.term_tree.specs.View.{tree_of};
ghost use Rattle.sym_state.specs.Registers.{held as held_spec};
ghost use Rattle.sym_state.specs.Views.{changed_of};
ghost use Rattle.term_text.specs.declared.item.Item.TheVariants as items;
ghost use Rattle.sym_diff.specs.Difference.{Differ, shown as shown_spec};
ghost use Rattle.sym_diff.specs.Registers as spec;
ghost use Rattle.sym_diff.specs.Views.{difference_of};

use crate::difference::{Found, SymDifference, same_terms, shown};
use crate::numbers::{Numbers, put_changed};
use plain_data::{Items, Memory};
use rtx_tree::{HARD_REGS, RegSet, VIRTUAL_STACK_VARS, reg_call_used};
use std::alloc::Global;
use sym_state::{SymReg, held, own_register};
use sym_term::TermMaker;
use term_text::Item;
use term_tree::{Measured, Term, is_narrower};

/// Whether a register was changed.
fn is_changed(regs: &[SymReg], reg: u64) -> bool
    ensures { result ≡ is_some (held_spec (map changed_of regs.now) reg) }
{
    held(regs, reg).is_some()
}

/// What a register was left with, where it was not unset.
fn value_left(alloc: Global, value: &Option<Measured>) -> Result<Option<Term>, Memory>
    ensures { IfOk result (λ copy. option_map tree_of copy ≡ option_map tree_of value.now) }
{
    match value {
        None => Ok(None),
        Some(value) => Ok(Some(value.term().copy(alloc)?)),
    }
}

/// What a register holds.
fn value_behind(alloc: Global, regs: &[SymReg], reg: u64) -> Result<Option<Term>, Memory>
    ensures { IfOk result (λ value. option_map tree_of value ≡
        spec.value_behind (held_spec (map changed_of regs.now) reg) reg) }
{
    match held(regs, reg) {
        None => Ok(Some(own_register(alloc, reg))),
        Some(changed) => value_left(alloc, &changed.value),
    }
}

/// The low bits of a term that are known of another.
fn cut_term(maker: &mut TermMaker, alloc: Global, a: &Term, b: &Term) -> Result<Term, Memory>
    ensures { IfOk result (λ term. Some (tree_of term) ≡
        spec.cut_beside (Some (tree_of a.now)) (Some (tree_of b.now))) }
{
    if is_narrower(a.width(), b.width()) {
        maker.cut(a.width(), b)
    } else {
        b.copy(alloc)
    }
}

/// The low bits that the other side knows.
pub fn cut_beside(
    maker: &mut TermMaker,
    alloc: Global,
    a: &Option<Term>,
    b: &Option<Term>,
) -> Result<Option<Term>, Memory>
    ensures { IfOk result (λ value. option_map tree_of value ≡
        spec.cut_beside (option_map tree_of a.now) (option_map tree_of b.now)) }
{
    match b {
        None => Ok(None),
        Some(b) => match a {
            None => Ok(Some(b.copy(alloc)?)),
            Some(a) => Ok(Some(cut_term(maker, alloc, a, b)?)),
        },
    }
}

/// Whether the second of two terms has as many bits as the first, and the same ones.
fn agree_terms(maker: &mut TermMaker, a: &Term, b: &Term) -> Result<bool, Memory>
    ensures { IfOk result (λ agree. agree ≡
        spec.agrees (Some (tree_of a.now)) (Some (tree_of b.now))) }
{
    if is_narrower(b.width(), a.width()) {
        Ok(false)
    } else {
        let low = maker.cut(a.width(), b)?;
        same_terms(maker, &low, a)
    }
}

/// Whether the second knows as many bits as the first, and the same ones.
fn agrees(maker: &mut TermMaker, a: &Option<Term>, b: &Option<Term>) -> Result<bool, Memory>
    ensures { IfOk result (λ agree. agree ≡
        spec.agrees (option_map tree_of a.now) (option_map tree_of b.now)) }
{
    match a {
        None => Ok(true),
        Some(a) => match b {
            None => Ok(false),
            Some(b) => agree_terms(maker, a, b),
        },
    }
}

fn is_live(live: &RegSet, reg: u64) -> bool
    ensures { result ≡ spec.is_live live.now reg }
{
    live.has_number(reg)
}

fn is_call_used(reg: u64) -> bool
    ensures { result ≡ is_call_used_spec reg }
{
    if reg < u64::from(HARD_REGS) {
        reg_call_used(reg as u8)
    } else {
        false
    }
}

/// Whether a register is one of `a0` to `a7` and `t0` to `t6`.
fn is_free(reg: u64) -> bool
    ensures { result ≡ spec.is_free reg }
{
    is_call_used(reg) && reg != 1
}

/// Whether the second changes a hard register, or `virtual-stack-vars`, that the first leaves
/// alone.
fn changes_alone(live: &RegSet, a: &[SymReg], b: &[SymReg], reg: u64) -> bool
    ensures { result ≡ spec.changes_alone live.now (held_spec (map changed_of a.now) reg)
        (held_spec (map changed_of b.now) reg) reg }
{
    reg <= u64::from(VIRTUAL_STACK_VARS)
        && !is_changed(a, reg)
        && is_changed(b, reg)
        && !(is_free(reg) && !is_live(live, reg))
}

/// Whether what a register holds agrees.
fn agree_behind(
    maker: &mut TermMaker,
    alloc: Global,
    a: &[SymReg],
    b: &[SymReg],
    reg: u64,
) -> Result<bool, Memory>
    ensures { IfOk result (λ agree. agree ≡
        spec.agrees (spec.value_behind (held_spec (map changed_of a.now) reg) reg)
        (spec.value_behind (held_spec (map changed_of b.now) reg) reg)) }
{
    let left = value_behind(alloc, a, reg)?;
    let right = value_behind(alloc, b, reg)?;
    agrees(maker, &left, &right)
}

fn fails(
    maker: &mut TermMaker,
    alloc: Global,
    live: &RegSet,
    a: &[SymReg],
    b: &[SymReg],
    reg: u64,
) -> Result<bool, Memory>
    ensures { IfOk result (λ bad.
        bad ≡ spec.fails live.now (held_spec (map changed_of a.now) reg)
        (held_spec (map changed_of b.now) reg) reg) }
{
    if changes_alone(live, a, b, reg) {
        Ok(true)
    } else if is_live(live, reg) {
        Ok(!agree_behind(maker, alloc, a, b, reg)?)
    } else {
        Ok(false)
    }
}

/// The low bits that the other side knows, as they are shown.
fn shown_beside(
    maker: &mut TermMaker,
    alloc: Global,
    a: &Option<Term>,
    b: &Option<Term>,
) -> Result<Term, Memory>
    ensures { IfOk result (λ term. tree_of term ≡
        shown_spec (spec.cut_beside (option_map tree_of a.now) (option_map tree_of b.now))) }
{
    let beside = cut_beside(maker, alloc, a, b)?;
    shown(alloc, &beside)
}

/// What a register holds on both sides.
fn differ_in(
    maker: &mut TermMaker,
    alloc: Global,
    reg: u64,
    a: &Option<Term>,
    b: &Option<Term>,
) -> Result<SymDifference, Memory>
    ensures { IfOk result (λ found. difference_of found ≡
        Differ (items.Register reg) (shown_spec (option_map tree_of a.now))
        (shown_spec (spec.cut_beside (option_map tree_of a.now) (option_map tree_of b.now)))) }
{
    Ok(SymDifference::Differ {
        item: Item::Register { reg },
        left: shown(alloc, a)?,
        right: shown_beside(maker, alloc, a, b)?,
    })
}

/// What a register holds behind both sides.
fn register_difference(
    maker: &mut TermMaker,
    alloc: Global,
    a: &[SymReg],
    b: &[SymReg],
    reg: u64,
) -> Result<SymDifference, Memory>
    ensures { IfOk result (λ found. difference_of found ≡
        spec.register_difference (held_spec (map changed_of a.now) reg)
        (held_spec (map changed_of b.now) reg) reg) }
{
    let left = value_behind(alloc, a, reg)?;
    let right = value_behind(alloc, b, reg)?;
    differ_in(maker, alloc, reg, &left, &right)
}

/// Whether a register is passed over, since a call may change it.
fn is_passed_over(calls: bool, reg: u64) -> bool
    ensures { result ≡ spec.is_passed_over calls reg }
{
    calls && is_call_used(reg)
}

fn compared_register(
    maker: &mut TermMaker,
    alloc: Global,
    calls: bool,
    live: &RegSet,
    a: &[SymReg],
    b: &[SymReg],
    reg: u64,
) -> Result<Found, Memory>
    ensures { IfOk result (λ found. option_map difference_of found ≡
        spec.compared_register calls live.now (held_spec (map changed_of a.now) reg)
        (held_spec (map changed_of b.now) reg) reg) }
{
    if is_passed_over(calls, reg) {
        Ok(None)
    } else if fails(maker, alloc, live, a, b, reg)? {
        Ok(Some(register_difference(maker, alloc, a, b, reg)?))
    } else {
        Ok(None)
    }
}

fn compared_all(
    maker: &mut TermMaker,
    alloc: Global,
    calls: bool,
    live: &RegSet,
    a: &[SymReg],
    b: &[SymReg],
    numbers: &[u64],
) -> Result<Found, Memory>
    ensures { IfOk result (λ found. option_map difference_of found ≡
        spec.compared_all calls live.now (map changed_of a.now) (map changed_of b.now)
        numbers.now) }
{
    for reg in numbers {
        if let Some(found) = compared_register(maker, alloc, calls, live, a, b, *reg)? {
            return Ok(Some(found));
        }
    }
    Ok(None)
}

/// The numbers of the registers that a side changes.
fn numbers_of(alloc: Global, a: &[SymReg], b: &[SymReg]) -> Result<Numbers, Memory>
    ensures { IfOk result (λ numbers. numbers ≡
        spec.changed_in (map changed_of b.now) (spec.changed_in (map changed_of a.now) [])) }
{
    let mut numbers = Items::new(alloc);
    put_changed(a, &mut numbers)?;
    put_changed(b, &mut numbers)?;
    Ok(numbers)
}

/// The first register that fails. Behind a call the registers that it may change are passed over.
pub fn compared_registers(
    maker: &mut TermMaker,
    alloc: Global,
    calls: bool,
    live: &RegSet,
    a: &[SymReg],
    b: &[SymReg],
) -> Result<Found, Memory>
    ensures { IfOk result (λ found. option_map difference_of found ≡
        spec.compared_all calls live.now (map changed_of a.now) (map changed_of b.now)
        (spec.changed_in (map changed_of b.now) (spec.changed_in (map changed_of a.now) []))) }
{
    let numbers = numbers_of(alloc, a, b)?;
    compared_all(maker, alloc, calls, live, a, b, numbers.as_slice())
}
