//! What the states call.
ghost use Rattle.std.specs.Prelude.{◌≡◌, map, option_map, Some, IfOk};
ghost use Rattle.bits64.specs.declared.Width.TheVariants.{W64};
ghost use Rattle.term_tree.specs.View.{tree_of};
ghost use Rattle.term_mean.specs.Sums.{constant};
ghost use Rattle.sym_state.specs.Views.{arg_of, call_of};
ghost use Rattle.term_text.specs.declared.item.Item.TheVariants as item;
ghost use Rattle.sym_diff.specs.Difference as difference;
ghost use Rattle.sym_diff.specs.Compared as spec;
ghost use Rattle.sym_diff.specs.Views.{difference_of};

use crate::difference::{Found, compared_terms, copy_of, differ, nothing, same_terms, shown};
use crate::numbers::{Numbers, put_args};
use crate::registers::cut_beside;
use bits64::Width;
use plain_data::{Items, Memory};
use rtx_tree::Mode;
use std::alloc::Global;
use sym_state::{SymArg, SymCall};
use sym_term::TermMaker;
use term_sums::constant_term;
use term_text::Item;
use term_tree::Term;

/// What is handed over in a register, where something is.
fn arg_at(alloc: Global, args: &[SymArg], reg: u64) -> Result<Option<Term>, Memory>
    ensures { IfOk result (λ value. option_map tree_of value ≡
        spec.arg_at (map arg_of args.now) reg) }
{
    for arg in args {
        if u64::from(arg.reg) == reg {
            return Ok(Some(arg.value.copy(alloc)?));
        }
    }
    Ok(None)
}

/// The registers of the arguments that are looked at.
fn compared_numbers(
    alloc: Global,
    of_lines: bool,
    a: &[SymArg],
    b: &[SymArg],
) -> Result<Numbers, Memory>
    ensures { IfOk result (λ numbers. numbers ≡
        spec.compared_numbers of_lines (map arg_of a.now) (map arg_of b.now)) }
{
    let mut numbers = Items::new(alloc);
    put_args(a, &mut numbers)?;
    if !of_lines {
        put_args(b, &mut numbers)?;
    }
    Ok(numbers)
}

/// What the second hands over: of lines, so many bits as the first.
fn arg_beside(
    maker: &mut TermMaker,
    alloc: Global,
    of_lines: bool,
    a: &Option<Term>,
    b: &Option<Term>,
) -> Result<Option<Term>, Memory>
    ensures { IfOk result (λ value. option_map tree_of value ≡
        spec.arg_beside of_lines (option_map tree_of a.now) (option_map tree_of b.now)) }
{
    if of_lines {
        cut_beside(maker, alloc, a, b)
    } else {
        copy_of(alloc, b)
    }
}

/// Whether both hand over the same, or both nothing.
fn same_value(maker: &mut TermMaker, a: &Option<Term>, b: &Option<Term>) -> Result<bool, Memory>
    ensures { IfOk result (λ same. same ≡
        spec.same_value (option_map tree_of a.now) (option_map tree_of b.now)) }
{
    match a {
        None => match b {
            None => Ok(true),
            Some(_b) => Ok(false),
        },
        Some(a) => match b {
            None => Ok(false),
            Some(b) => same_terms(maker, a, b),
        },
    }
}

/// What is handed over on both sides.
fn differ_as_shown(alloc: Global, a: &Option<Term>, b: &Option<Term>) -> Result<Found, Memory>
    ensures { IfOk result (λ found. option_map difference_of found ≡
        Some (difference.Differ item.Call (difference.shown (option_map tree_of a.now))
        (difference.shown (option_map tree_of b.now)))) }
{
    let left = shown(alloc, a)?;
    let right = shown(alloc, b)?;
    differ(alloc, Item::Call, &left, &right)
}

fn compared_arg(
    maker: &mut TermMaker,
    alloc: Global,
    of_lines: bool,
    a: &Option<Term>,
    b: &Option<Term>,
) -> Result<Found, Memory>
    ensures { IfOk result (λ found. option_map difference_of found ≡
        spec.compared_arg of_lines (option_map tree_of a.now) (option_map tree_of b.now)) }
{
    let beside = arg_beside(maker, alloc, of_lines, a, b)?;
    if same_value(maker, a, &beside)? {
        Ok(None)
    } else {
        differ_as_shown(alloc, a, &beside)
    }
}

/// What is handed over in a register on both sides.
fn compared_at(
    maker: &mut TermMaker,
    alloc: Global,
    of_lines: bool,
    a: &[SymArg],
    b: &[SymArg],
    reg: u64,
) -> Result<Found, Memory>
    ensures { IfOk result (λ found. option_map difference_of found ≡
        spec.compared_arg of_lines (spec.arg_at (map arg_of a.now) reg)
        (spec.arg_at (map arg_of b.now) reg)) }
{
    let left = arg_at(alloc, a, reg)?;
    let right = arg_at(alloc, b, reg)?;
    compared_arg(maker, alloc, of_lines, &left, &right)
}

fn compared_args(
    maker: &mut TermMaker,
    alloc: Global,
    of_lines: bool,
    a: &[SymArg],
    b: &[SymArg],
    numbers: &[u64],
) -> Result<Found, Memory>
    ensures { IfOk result (λ found. option_map difference_of found ≡
        spec.compared_args of_lines (map arg_of a.now) (map arg_of b.now) numbers.now) }
{
    for reg in numbers {
        if let Some(found) = compared_at(maker, alloc, of_lines, a, b, *reg)? {
            return Ok(Some(found));
        }
    }
    Ok(None)
}

/// The width in which a result is taken as it is shown, 0 for none.
fn result_term(alloc: Global, mode: Option<Mode>) -> Term
    ensures { tree_of result ≡ constant W64 (spec.result_bits mode) }
{
    match mode {
        None => constant_term(alloc, Width::W64, 0),
        Some(mode) => constant_term(alloc, Width::W64, u64::from(mode.bits())),
    }
}

/// The widths of the results. Lines take theirs in no mode.
fn compared_results(
    maker: &mut TermMaker,
    alloc: Global,
    of_lines: bool,
    a: &SymCall,
    b: &SymCall,
) -> Result<Found, Memory>
    ensures { IfOk result (λ found. option_map difference_of found ≡
        spec.compared_results of_lines (call_of a.now) (call_of b.now)) }
{
    if of_lines {
        Ok(None)
    } else {
        compared_terms(
            maker,
            alloc,
            Item::Call,
            &result_term(alloc, a.result),
            &result_term(alloc, b.result),
        )
    }
}

/// The arguments that are looked at.
fn compared_all(
    maker: &mut TermMaker,
    alloc: Global,
    of_lines: bool,
    a: &[SymArg],
    b: &[SymArg],
) -> Result<Found, Memory>
    ensures { IfOk result (λ found. option_map difference_of found ≡
        spec.compared_args of_lines (map arg_of a.now) (map arg_of b.now)
        (spec.compared_numbers of_lines (map arg_of a.now) (map arg_of b.now))) }
{
    let numbers = compared_numbers(alloc, of_lines, a, b)?;
    compared_args(maker, alloc, of_lines, a, b, numbers.as_slice())
}

/// Two calls.
fn compared_both(
    maker: &mut TermMaker,
    alloc: Global,
    of_lines: bool,
    a: &SymCall,
    b: &SymCall,
) -> Result<Found, Memory>
    ensures { IfOk result (λ found. option_map difference_of found ≡
        spec.compared_calls of_lines (Some (call_of a.now)) (Some (call_of b.now))) }
{
    if let Some(found) = compared_terms(maker, alloc, Item::Call, &a.target, &b.target)? {
        return Ok(Some(found));
    }
    match compared_all(maker, alloc, of_lines, a.args.as_slice(), b.args.as_slice())? {
        Some(found) => Ok(Some(found)),
        None => compared_results(maker, alloc, of_lines, a, b),
    }
}

/// The targets where they differ, else the first argument by its register, else the widths of the
/// results.
pub fn compared_calls(
    maker: &mut TermMaker,
    alloc: Global,
    of_lines: bool,
    a: &Option<SymCall>,
    b: &Option<SymCall>,
) -> Result<Found, Memory>
    ensures { IfOk result (λ found. option_map difference_of found ≡
        spec.compared_calls of_lines (option_map call_of a.now) (option_map call_of b.now)) }
{
    match a {
        None => match b {
            None => Ok(None),
            Some(b) => differ(alloc, Item::Call, &nothing(alloc), &b.target),
        },
        Some(a) => match b {
            None => differ(alloc, Item::Call, &a.target, &nothing(alloc)),
            Some(b) => compared_both(maker, alloc, of_lines, a, b),
        },
    }
}
