//! What asks for registers, in order.
ghost use Rattle.std.specs.Prelude.{◌≡◌, ◌≤◌, ◌<◌, ◌+◌, ℕ, length, IfOk, IfSome, OnOk};
ghost use Rattle.std.specs.List.{position_from};
ghost use Rattle.reload_moves.specs.Registers as spec;

use crate::ask::{Ask, What};
use crate::part::Part;
use plain_data::{Items, Memory};
use std::alloc::Global;

fn rank(what: What) -> u8
    ensures { result ≡ spec.rank what }
{
    match what {
        What::Own => 0,
        What::StayingBase => 1,
        What::ResultBase => 2,
        What::StayingFar => 3,
        What::ResultFar => 4,
    }
}

fn same_ask(a: Ask, b: Ask) -> bool
    ensures { result ≡ spec.same_ask a b }
{
    rank(a.what) == rank(b.what) && a.place == b.place
}

fn is_asked(asks: &[Ask], a: Ask) -> bool
    ensures { result ≡ spec.is_asked asks.now a }
{
    asks.iter().any(|b| same_ask(a, *b))
}

fn add(asks: &mut Items<Ask>, a: Ask) -> Result<(), Memory>
    ensures { OnOk result (asks.new ≡ spec.with_ask asks.old a) }
{
    if is_asked(asks.as_slice(), a) {
        Ok(())
    } else {
        asks.push(a)
    }
}

fn add_if(needed: bool, asks: &mut Items<Ask>, a: Ask) -> Result<(), Memory>
    ensures { OnOk result (asks.new ≡ spec.with_ask_if needed asks.old a) }
{
    if needed { add(asks, a) } else { Ok(()) }
}

/// Whether an operand is moved after the instruction.
pub fn is_result(p: &Part) -> bool
    ensures { result ≡ spec.is_result p.now }
{
    p.is_moved && p.needs.is_output
}

/// Whether the instruction, or a move behind it, names the base of an operand.
pub fn holds_base(p: &Part) -> bool
    ensures { result ≡ spec.holds_base p.now }
{
    p.needs.has_base && (!p.is_moved || p.needs.is_output)
}

/// What asks for the base of an operand.
pub fn base_ask(p: &Part) -> Ask
    ensures { result ≡ spec.base_ask p.now }
{
    if p.is_moved {
        Ask {
            what: What::ResultBase,
            place: p.place,
        }
    } else {
        Ask {
            what: What::StayingBase,
            place: p.holder,
        }
    }
}

/// What asks for an operand's own register.
pub fn own_ask(p: &Part) -> Ask
    ensures { result ≡ spec.ask What.Own p.now.holder }
{
    Ask {
        what: What::Own,
        place: p.holder,
    }
}

/// What asks for the far base of what stays.
pub fn far_ask(p: &Part) -> Ask
    ensures { result ≡ spec.ask What.StayingFar p.now.holder }
{
    Ask {
        what: What::StayingFar,
        place: p.holder,
    }
}

/// What asks for the far base of a result.
pub fn end_far_ask(p: &Part) -> Ask
    ensures { result ≡ spec.ask What.ResultFar p.now.place }
{
    Ask {
        what: What::ResultFar,
        place: p.place,
    }
}

/// Whether an operand is a far memory that stays.
pub fn stays_far(p: &Part) -> bool
    ensures { result ≡ spec.stays_far p.now }
{
    !p.is_moved && p.needs.far.is_some()
}

fn ends_far(p: &Part) -> bool
    ensures { result ≡ spec.ends_far p.now }
{
    is_result(p) && p.needs.far.is_some()
}

fn add_turn(asks: &mut Items<Ask>, p: &Part) -> Result<(), Memory>
    ensures { OnOk result (asks.new ≡ spec.with_turn asks.old p.now) }
{
    add_if(p.is_moved, asks, own_ask(p))?;
    add_if(holds_base(p), asks, base_ask(p))?;
    add_if(stays_far(p), asks, far_ask(p))
}

fn add_turns(asks: &mut Items<Ask>, parts: &[Part]) -> Result<(), Memory>
    ensures { OnOk result (asks.new ≡ spec.with_turns asks.old parts.now) }
{
    for p in parts {
        add_turn(asks, p)?;
    }
    Ok(())
}

fn add_end(asks: &mut Items<Ask>, p: &Part) -> Result<(), Memory>
    ensures { OnOk result (asks.new ≡ spec.with_end asks.old p.now) }
{
    add_if(ends_far(p), asks, end_far_ask(p))
}

fn add_ends(asks: &mut Items<Ask>, parts: &[Part]) -> Result<(), Memory>
    ensures { OnOk result (asks.new ≡ spec.with_ends asks.old parts.now) }
{
    for p in parts {
        add_end(asks, p)?;
    }
    Ok(())
}

/// What asks for a register, in order.
pub fn asks_of(alloc: Global, parts: &[Part]) -> Result<Items<Ask>, Memory>
    ensures { IfOk result (λ asks. asks ≡ spec.asks_of parts.now) }
{
    let mut asks = Items::new(alloc);
    add_turns(&mut asks, parts)?;
    add_ends(&mut asks, parts)?;
    Ok(asks)
}

fn place_of(asks: &[Ask], a: Ask) -> Option<usize>
    ensures value { result ≡ position_from (spec.same_ask a) 0 asks.now }
    ensures within { IfSome result (λ k. k < length asks.now) }
{
    asks.iter().position(|b| same_ask(a, *b))
}

/// The register of an ask, one of t3 to t6. What doesn't ask has none of these.
pub fn register_for(asks: &[Ask], a: Ask) -> u32
    requires { length asks.now ≤ 4 }
    ensures { result ≡ spec.register_for asks.now a }
{
    match place_of(asks, a) {
        Some(place) => 28 + place as u32,
        None => 32,
    }
}
