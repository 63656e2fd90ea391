//! The moves of an alternative.
ghost use Rattle.std.specs.Prelude.{◌≡◌, ◌≤◌, ◌++◌, flat_map, length, IfOk, OnOk};
ghost use Rattle.reload_moves.specs.Moves as spec;
ghost use Rattle.reload_moves.specs.Registers.{stays_far};

use crate::ask::Ask;
use crate::moves::Move;
use crate::part::Part;
use crate::registers::{
    base_ask, end_far_ask, far_ask, holds_base, is_result, own_ask, register_for, stays_far,
};
use plain_data::{Items, Memory};
use std::alloc::Global;

/// The operand's own register.
pub fn own_of(asks: &[Ask], p: &Part) -> u32
    requires { length asks.now ≤ 4 }
    ensures { result ≡ spec.own_of asks.now p.now }
{
    register_for(asks, own_ask(p))
}

/// The register of its base.
pub fn base_of(asks: &[Ask], p: &Part) -> u32
    requires { length asks.now ≤ 4 }
    ensures { result ≡ spec.base_of asks.now p.now }
{
    if holds_base(p) {
        register_for(asks, base_ask(p))
    } else {
        own_of(asks, p)
    }
}

/// The far base of what stays.
pub fn far_of(asks: &[Ask], p: &Part) -> u32
    requires { length asks.now ≤ 4 }
    ensures { result ≡ spec.far_of asks.now p.now }
{
    register_for(asks, far_ask(p))
}

/// The far base of a result.
fn end_far_of(asks: &[Ask], p: &Part) -> u32
    requires { length asks.now ≤ 4 }
    ensures { result ≡ spec.end_far_of asks.now p.now }
{
    register_for(asks, end_far_ask(p))
}

fn is_in_front(q: &Part, p: &Part) -> bool
    ensures { result ≡ spec.is_in_front p.now q.now }
{
    q.place < p.place && q.holder == p.holder
}

fn comes_in(p: &Part) -> bool
    ensures { result ≡ spec.comes_in p.now }
{
    p.is_moved && p.needs.is_input
}

fn stays_based(p: &Part) -> bool
    ensures { result ≡ spec.stays_based p.now }
{
    !p.is_moved && p.needs.has_base
}

fn comes_in_in_front(parts: &[Part], p: &Part) -> bool
    ensures { result ≡ spec.any_in_front spec.comes_in parts.now p.now }
{
    parts.iter().any(|q| is_in_front(q, p) && comes_in(q))
}

fn comes_in_first(parts: &[Part], p: &Part) -> bool
    ensures { result ≡ spec.comes_in_first parts.now p.now }
{
    comes_in(p) && !comes_in_in_front(parts, p)
}

fn stays_based_in_front(parts: &[Part], p: &Part) -> bool
    ensures { result ≡ spec.any_in_front spec.stays_based parts.now p.now }
{
    parts.iter().any(|q| is_in_front(q, p) && stays_based(q))
}

fn stays_based_first(parts: &[Part], p: &Part) -> bool
    ensures { result ≡ spec.stays_based_first parts.now p.now }
{
    stays_based(p) && !stays_based_in_front(parts, p)
}

fn stays_far_in_front(parts: &[Part], p: &Part) -> bool
    ensures { result ≡ spec.any_in_front stays_far parts.now p.now }
{
    parts.iter().any(|q| is_in_front(q, p) && stays_far(q))
}

fn stays_far_first(parts: &[Part], p: &Part) -> bool
    ensures { result ≡ spec.stays_far_first parts.now p.now }
{
    stays_far(p) && !stays_far_in_front(parts, p)
}

fn loads_base(parts: &[Part], p: &Part) -> bool
    ensures { result ≡ spec.loads_base parts.now p.now }
{
    p.needs.has_base && (stays_based_first(parts, p) || is_result(p) || comes_in_first(parts, p))
}

fn push_far(into: u32, far: Option<i64>, moves: &mut Items<Move>) -> Result<(), Memory>
    ensures { OnOk result (moves.new ≡ moves.old ++ spec.far_to into far) }
{
    match far {
        Some(offset) => moves.push(Move::Far { into, offset }),
        None => Ok(()),
    }
}

#[tactic(auto, using(crate::proofs::Appended::appended_two))]
fn push_base(asks: &[Ask], p: &Part, moves: &mut Items<Move>) -> Result<(), Memory>
    requires { length asks.now ≤ 4 }
    ensures { OnOk result (moves.new ≡ moves.old ++ spec.base_load asks.now p.now) }
{
    let into = base_of(asks, p);
    push_far(into, p.needs.slot_far, moves)?;
    moves.push(Move::Base {
        into,
        place: p.place,
    })
}

fn push_base_moves(
    asks: &[Ask],
    parts: &[Part],
    p: &Part,
    moves: &mut Items<Move>,
) -> Result<(), Memory>
    requires { length asks.now ≤ 4 }
    ensures { OnOk result (moves.new ≡ moves.old ++ spec.base_moves asks.now parts.now p.now) }
{
    if loads_base(parts, p) {
        push_base(asks, p, moves)
    } else {
        Ok(())
    }
}

fn in_base(asks: &[Ask], p: &Part) -> Option<u32>
    requires { length asks.now ≤ 4 }
    ensures { result ≡ spec.in_base asks.now p.now }
{
    if p.needs.far.is_some() {
        Some(own_of(asks, p))
    } else if p.needs.has_base {
        Some(base_of(asks, p))
    } else {
        None
    }
}

#[tactic(auto, using(crate::proofs::Appended::appended_two))]
fn push_in(asks: &[Ask], p: &Part, moves: &mut Items<Move>) -> Result<(), Memory>
    requires { length asks.now ≤ 4 }
    ensures { OnOk result (moves.new ≡ moves.old ++ spec.in_load asks.now p.now) }
{
    let into = own_of(asks, p);
    push_far(into, p.needs.far, moves)?;
    moves.push(Move::In {
        into,
        place: p.place,
        base: in_base(asks, p),
    })
}

fn push_in_moves(
    asks: &[Ask],
    parts: &[Part],
    p: &Part,
    moves: &mut Items<Move>,
) -> Result<(), Memory>
    requires { length asks.now ≤ 4 }
    ensures { OnOk result (moves.new ≡ moves.old ++ spec.in_moves asks.now parts.now p.now) }
{
    if comes_in_first(parts, p) {
        push_in(asks, p, moves)
    } else {
        Ok(())
    }
}

fn push_far_moves(
    asks: &[Ask],
    parts: &[Part],
    p: &Part,
    moves: &mut Items<Move>,
) -> Result<(), Memory>
    requires { length asks.now ≤ 4 }
    ensures { OnOk result (moves.new ≡ moves.old ++ spec.far_moves asks.now parts.now p.now) }
{
    if stays_far_first(parts, p) {
        push_far(far_of(asks, p), p.needs.far, moves)
    } else {
        Ok(())
    }
}

fn out_base(asks: &[Ask], p: &Part) -> Option<u32>
    requires { length asks.now ≤ 4 }
    ensures { result ≡ spec.out_base asks.now p.now }
{
    if p.needs.far.is_some() {
        Some(end_far_of(asks, p))
    } else if p.needs.has_base {
        Some(base_of(asks, p))
    } else {
        None
    }
}

#[tactic(auto, using(crate::proofs::Appended::appended_two))]
fn push_out(asks: &[Ask], p: &Part, moves: &mut Items<Move>) -> Result<(), Memory>
    requires { length asks.now ≤ 4 }
    ensures { OnOk result (moves.new ≡ moves.old ++ spec.out_store asks.now p.now) }
{
    push_far(end_far_of(asks, p), p.needs.far, moves)?;
    moves.push(Move::Out {
        from: own_of(asks, p),
        place: p.place,
        base: out_base(asks, p),
    })
}

fn push_out_moves(asks: &[Ask], p: &Part, moves: &mut Items<Move>) -> Result<(), Memory>
    requires { length asks.now ≤ 4 }
    ensures { OnOk result (moves.new ≡ moves.old ++ spec.out_moves asks.now p.now) }
{
    if is_result(p) {
        push_out(asks, p, moves)
    } else {
        Ok(())
    }
}

#[tactic(auto, using(crate::proofs::Appended::appended_two))]
fn push_turn(asks: &[Ask], parts: &[Part], p: &Part, moves: &mut Items<Move>) -> Result<(), Memory>
    requires { length asks.now ≤ 4 }
    ensures { OnOk result (moves.new ≡ moves.old ++ spec.turn_moves asks.now parts.now p.now) }
{
    push_base_moves(asks, parts, p, moves)?;
    push_in_moves(asks, parts, p, moves)
}

fn push_turns(asks: &[Ask], parts: &[Part], moves: &mut Items<Move>) -> Result<(), Memory>
    requires { length asks.now ≤ 4 }
    ensures { OnOk result (moves.new ≡ moves.old ++ flat_map
        (spec.turn_moves asks.now parts.now) parts.now) }
{
    for p in parts {
        push_turn(asks, parts, p, moves)?;
    }
    Ok(())
}

fn push_fars(asks: &[Ask], parts: &[Part], moves: &mut Items<Move>) -> Result<(), Memory>
    requires { length asks.now ≤ 4 }
    ensures { OnOk result (moves.new ≡ moves.old ++ flat_map
        (spec.far_moves asks.now parts.now) parts.now) }
{
    for p in parts {
        push_far_moves(asks, parts, p, moves)?;
    }
    Ok(())
}

/// The moves before the instruction.
pub fn moves_before(alloc: Global, asks: &[Ask], parts: &[Part]) -> Result<Items<Move>, Memory>
    requires { length asks.now ≤ 4 }
    ensures { IfOk result (λ moves. moves ≡ spec.moves_before asks.now parts.now) }
{
    let mut moves = Items::new(alloc);
    push_turns(asks, parts, &mut moves)?;
    push_fars(asks, parts, &mut moves)?;
    Ok(moves)
}

/// The moves after the instruction.
pub fn moves_after(alloc: Global, asks: &[Ask], parts: &[Part]) -> Result<Items<Move>, Memory>
    requires { length asks.now ≤ 4 }
    ensures { IfOk result (λ moves. moves ≡ spec.moves_after asks.now parts.now) }
{
    let mut moves = Items::new(alloc);
    for p in parts {
        push_out_moves(asks, p, &mut moves)?;
    }
    Ok(moves)
}
