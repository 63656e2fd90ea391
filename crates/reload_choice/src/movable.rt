//! What can be moved.
ghost use Rattle.std.specs.Prelude.{◌≡◌, ◌≤◌, length, map, IfOk};
ghost use Rattle.reload_moves.specs.Registers.{asks_of};
ghost use Rattle.reload_choice.specs.Movable as spec;
ghost use Rattle.reload_choice.specs.machine.Asked.{asks_in, is_reached};

use crate::given::Given;
use crate::insns::between;
use c_eval::{same_mode, same_tree};
use plain_data::{Items, Memory};
use reload_fit::{Asked, is_memory};
use reload_moves::{Fitting, Part, is_marked, is_result};
use reload_operands::{Operand, Whole, put};
use rtl_func::{call_modes_agree, kinds_agree, shapes_agree};
use rtx_tree::{Kind, Mode, Operands, Rtx};
use std::alloc::Global;

fn is_mode(mode: Mode) -> bool
    ensures { result ≡ spec.is_mode mode }
{
    !matches!(mode, Mode::Void)
}

/// Whether an instruction is within the table of codes, and of a kind.
fn is_formed_as(kind: Kind, x: &Rtx) -> bool
    ensures { result ≡ spec.is_formed_as kind x.now }
{
    shapes_agree(x) && call_modes_agree(x) && kinds_agree(kind, x)
}

/// The instruction with t3 in each of an operand's places.
fn with_register(alloc: Global, given: &Given, x: &Operand) -> Result<Rtx, Memory>
    ensures { IfOk result (λ tree. tree ≡ spec.with_register given.now x.now) }
{
    let mut news = Operands::new(alloc);
    news.put(x.number, Rtx::reg(alloc, x.mode, 28))?;
    put(alloc, &given.pattern, &news, &given.insn)
}

fn is_formed(alloc: Global, given: &Given, x: &Operand) -> Result<bool, Memory>
    ensures { IfOk result (λ formed. formed ≡ spec.is_formed given.now x.now) }
{
    let insn = with_register(alloc, given, x)?;
    Ok(is_formed_as(given.kind, &insn))
}

/// Whether each operand can be replaced by a register.
pub fn formed_of(alloc: Global, given: &Given) -> Result<Items<bool>, Memory>
    ensures { IfOk result (λ formed. formed ≡ spec.formed_of given.now) }
{
    let mut formed = Items::new(alloc);
    for x in given.operands.as_slice() {
        formed.push(is_formed(alloc, given, x)?)?;
    }
    Ok(formed)
}

fn can_be_replaced(formed: &[bool], place: usize, x: &Operand) -> bool
    ensures { result ≡ spec.can_be_replaced formed.now place x.now }
{
    !x.is_operator && !x.is_hidden && is_mode(x.mode) && !x.in_lowpart && is_marked(formed, place)
}

fn may_land(x: &Operand) -> bool
    ensures { result ≡ spec.may_land x.now }
{
    x.in_slot || !is_memory(&x.tree) || (!x.other_memory && !x.changed_address)
}

fn may_have_results(kind: Kind, whole: Whole) -> bool
    ensures { result ≡ spec.may_have_results kind whole }
{
    matches!(kind, Kind::Plain) && !whole.twice_before && !whole.twice_after
}

fn may_end(given: &Given, x: &Operand) -> bool
    ensures { result ≡ spec.may_end given.now x.now }
{
    may_have_results(given.kind, given.whole) && !x.is_clobbered && may_land(x)
}

fn are_same_inputs(x: &Operand, y: &Operand) -> bool
    ensures { result ≡ spec.are_same_inputs x.now y.now }
{
    !(x.is_input && y.is_input) || (same_tree(&x.tree, &y.tree) && same_mode(x.mode, y.mode))
}

fn are_same_outputs(x: &Operand, y: &Operand) -> bool
    ensures { result ≡ spec.are_same_outputs x.now y.now }
{
    !(x.is_output && y.is_output) || same_tree(&x.tree, &y.tree)
}

fn is_alone(x: &Operand, y: &Operand) -> bool
    ensures { result ≡ spec.is_alone x.now y.now }
{
    !x.is_output || !(y.is_scratch || y.is_clobbered)
}

fn may_share(x: &Operand, y: &Operand) -> bool
    ensures { result ≡ spec.may_share x.now y.now }
{
    are_same_inputs(x, y) && are_same_outputs(x, y) && is_alone(x, y)
}

fn both_may_share(operands: &[Operand], i: usize, j: usize) -> bool
    ensures { result ≡ spec.at_both operands.now i j spec.may_share }
{
    match (operands.get(i), operands.get(j)) {
        (Some(x), Some(y)) => may_share(x, y),
        _ => false,
    }
}

fn share(p: &Part, q: &Part) -> bool
    ensures { result ≡ spec.share p.now q.now }
{
    p.is_moved && q.is_moved && p.holder == q.holder
}

fn shares_well(operands: &[Operand], p: &Part, q: &Part) -> bool
    ensures { result ≡ spec.shares_well operands.now p.now q.now }
{
    !share(p, q) || both_may_share(operands, p.place, q.place)
}

fn shares_with_all(operands: &[Operand], parts: &[Part], p: &Part) -> bool
    ensures { result ≡ spec.shares_with_all operands.now parts.now p.now }
{
    parts.iter().all(|q| shares_well(operands, p, q))
}

fn all_share_well(operands: &[Operand], parts: &[Part]) -> bool
    ensures { result ≡ spec.all_share_well operands.now parts.now }
{
    parts.iter().all(|p| shares_with_all(operands, parts, p))
}

fn is_clear(p: &Part, x: &Operand) -> bool
    ensures { result ≡ spec.is_clear p.now x.now }
{
    !x.in_lowpart || !(p.needs.has_base || p.needs.far.is_some())
}

fn part_may_end(given: &Given, p: &Part, x: &Operand) -> bool
    ensures { result ≡ spec.part_may_end given.now p.now x.now }
{
    !is_result(p) || may_end(given, x)
}

fn part_at_is_good(given: &Given, p: &Part, x: &Operand) -> bool
    ensures { result ≡ spec.part_at_is_good given.now p.now x.now }
{
    is_clear(p, x) && part_may_end(given, p, x)
}

fn part_is_good(given: &Given, p: &Part) -> bool
    ensures { result ≡ spec.part_is_good given.now p.now }
{
    match given.operands.as_slice().get(p.place) {
        Some(x) => part_at_is_good(given, p, x),
        None => false,
    }
}

fn all_good(given: &Given, parts: &[Part]) -> bool
    ensures { result ≡ spec.all_good given.now parts.now }
{
    parts.iter().all(|p| part_is_good(given, p))
}

/// Whether the operand at a place can be moved.
fn may_move(
    asked: &Asked,
    fits: &[Fitting],
    formed: &[bool],
    place: usize,
    x: &Operand,
) -> Result<bool, Memory>
    ensures { IfOk result (λ may. may ≡ spec.may_move
        (asks_in asked.now) asked.now.operands.now fits.now formed.now place x.now) }
{
    if can_be_replaced(formed, place, x) {
        asked.takes_register(fits, place, x.mode)
    } else {
        Ok(false)
    }
}

fn may_move_at(
    asked: &Asked,
    fits: &[Fitting],
    formed: &[bool],
    place: usize,
) -> Result<bool, Memory>
    ensures { IfOk result (λ may. may ≡ spec.may_move_at
        (asks_in asked.now) asked.now.operands.now fits.now formed.now place) }
{
    match asked.operands.get(place) {
        Some(x) => may_move(asked, fits, formed, place, x),
        None => Ok(false),
    }
}

fn part_may_move(asked: &Asked, fits: &[Fitting], formed: &[bool], p: &Part) -> Result<bool, Memory>
    ensures { IfOk result (λ may. may ≡ spec.part_may_move
        (asks_in asked.now) asked.now.operands.now fits.now formed.now p.now) }
{
    if p.is_moved {
        may_move_at(asked, fits, formed, p.place)
    } else {
        Ok(true)
    }
}

/// Whether each operand can be moved that is.
fn moving_row(
    asked: &Asked,
    fits: &[Fitting],
    formed: &[bool],
    parts: &[Part],
) -> Result<Items<bool>, Memory>
    ensures { IfOk result (λ row. row ≡ map
        (spec.part_may_move (asks_in asked.now) asked.now.operands.now fits.now formed.now)
        parts.now) }
{
    let mut row = Items::new(asked.alloc);
    for p in parts {
        row.push(part_may_move(asked, fits, formed, p)?)?;
    }
    Ok(row)
}

fn are_all(row: &[bool]) -> bool
    ensures { result ≡ spec.are_all row.now }
{
    row.iter().all(|mark| *mark)
}

fn all_may_move(
    asked: &Asked,
    fits: &[Fitting],
    formed: &[bool],
    parts: &[Part],
) -> Result<bool, Memory>
    ensures { IfOk result (λ may. may ≡ spec.all_may_move
        (asks_in asked.now) asked.now.operands.now fits.now formed.now parts.now) }
{
    let row = moving_row(asked, fits, formed, parts)?;
    Ok(are_all(row.as_slice()))
}

/// Whether operands may share, results may be moved, and what is moved can be moved.
fn is_suited(
    asked: &Asked,
    given: &Given,
    fits: &[Fitting],
    formed: &[bool],
    parts: &[Part],
) -> Result<bool, Memory>
    ensures { IfOk result (λ suited.
        suited ≡ spec.is_suited (asks_in asked.now) asked.now.operands.now given.now fits.now
        formed.now parts.now) }
{
    if all_share_well(given.operands.as_slice(), parts) && all_good(given, parts) {
        all_may_move(asked, fits, formed, parts)
    } else {
        Ok(false)
    }
}

/// Whether the instruction is within the table of codes, and of its kind, with all that is new in
/// it.
fn stays_formed(alloc: Global, given: &Given, parts: &[Part]) -> Result<bool, Memory>
    requires { length (asks_of parts.now) ≤ 4 }
    ensures { IfOk result (λ formed. formed ≡ spec.stays_formed given.now parts.now) }
{
    let insn = between(alloc, given, parts)?;
    Ok(is_formed_as(given.kind, &insn))
}

/// Whether an alternative is reachable. Four registers suffice.
pub fn is_reached(
    asked: &Asked,
    given: &Given,
    fits: &[Fitting],
    formed: &[bool],
    parts: &[Part],
) -> Result<bool, Memory>
    requires { length (asks_of parts.now) ≤ 4 }
    ensures { IfOk result (λ reached.
        reached ≡ is_reached asked.now given.now fits.now formed.now parts.now) }
{
    if is_suited(asked, given, fits, formed, parts)? {
        stays_formed(asked.alloc, given, parts)
    } else {
        Ok(false)
    }
}
