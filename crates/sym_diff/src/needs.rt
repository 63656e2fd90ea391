//! What has to be there.
ghost use Rattle.std.specs.Prelude.{◌≡◌, map, option_map, Some, IfOk};
ghost use Rattle.term_tree.specs.View.{tree_of};
ghost use Rattle.sym_state.specs.Views.{need_at_of, need_of};
ghost use Rattle.sym_state.specs.State as needs;
ghost use Rattle.sym_diff.specs.Difference as difference;
ghost use Rattle.sym_diff.specs.Compared as spec;
ghost use Rattle.sym_diff.specs.Views.{difference_of};

use crate::difference::{Found, SymDifference, same_terms};
use bits64::Width;
use plain_data::Memory;
use rtx_tree::Name;
use std::alloc::Global;
use sym_state::{NeedOf, SymNeed, own_register, own_symbol};
use sym_term::TermMaker;
use term_tree::{Term, is_narrower, is_same_width};

/// Whether known bits of a register cover a need.
fn covers_register(reg: u64, w: Width, need: &NeedOf) -> bool
    ensures { result ≡ spec.covers (needs.Register reg w) (need_of need.now) }
{
    match need {
        NeedOf::Register { reg: other, width } => *other == reg && !is_narrower(w, *width),
        NeedOf::Lost { .. } => false,
        NeedOf::Access { .. } => false,
        NeedOf::Divisor { .. } => false,
        NeedOf::Symbol { .. } => false,
    }
}

/// Whether an access covers a need.
fn covers_access(
    maker: &mut TermMaker,
    address: &Term,
    w: Width,
    need: &NeedOf,
) -> Result<bool, Memory>
    ensures { IfOk result (λ covered. covered ≡
        spec.covers (needs.Access (tree_of address.now) w) (need_of need.now)) }
{
    match need {
        NeedOf::Register { .. } => Ok(false),
        NeedOf::Lost { .. } => Ok(false),
        NeedOf::Access {
            address: other,
            width,
        } => {
            if is_same_width(w, *width) {
                same_terms(maker, address, other.term())
            } else {
                Ok(false)
            }
        }
        NeedOf::Divisor { .. } => Ok(false),
        NeedOf::Symbol { .. } => Ok(false),
    }
}

/// Whether a divisor covers a need.
fn covers_divisor(maker: &mut TermMaker, term: &Term, need: &NeedOf) -> Result<bool, Memory>
    ensures { IfOk result (λ covered. covered ≡
        spec.covers (needs.Divisor (tree_of term.now)) (need_of need.now)) }
{
    match need {
        NeedOf::Register { .. } => Ok(false),
        NeedOf::Lost { .. } => Ok(false),
        NeedOf::Access { .. } => Ok(false),
        NeedOf::Divisor { term: other } => same_terms(maker, term, other.term()),
        NeedOf::Symbol { .. } => Ok(false),
    }
}

/// Whether a symbol covers a need.
fn covers_symbol(name: &Name, need: &NeedOf) -> bool
    ensures { result ≡ spec.covers (needs.Symbol name.now) (need_of need.now) }
{
    match need {
        NeedOf::Register { .. } => false,
        NeedOf::Lost { .. } => false,
        NeedOf::Access { .. } => false,
        NeedOf::Divisor { .. } => false,
        NeedOf::Symbol { name: other } => name.bytes() == other.bytes(),
    }
}

/// Whether a need that is had covers another.
fn covers(maker: &mut TermMaker, had: &NeedOf, need: &NeedOf) -> Result<bool, Memory>
    ensures { IfOk result (λ covered. covered ≡ spec.covers (need_of had.now) (need_of need.now)) }
{
    match had {
        NeedOf::Register { reg, width } => Ok(covers_register(*reg, *width, need)),
        NeedOf::Lost { .. } => Ok(false),
        NeedOf::Access { address, width } => covers_access(maker, address.term(), *width, need),
        NeedOf::Divisor { term } => covers_divisor(maker, term.term(), need),
        NeedOf::Symbol { name } => Ok(covers_symbol(name, need)),
    }
}

fn is_covered(maker: &mut TermMaker, had: &[SymNeed], need: &NeedOf) -> Result<bool, Memory>
    ensures { IfOk result (λ covered. covered ≡
        spec.is_covered (map need_at_of had.now) (need_of need.now)) }
{
    for one in had {
        if covers(maker, &one.what, need)? {
            return Ok(true);
        }
    }
    Ok(false)
}

/// A need as it is shown.
fn need_term(alloc: Global, need: &NeedOf) -> Result<Term, Memory>
    ensures { IfOk result (λ term. tree_of term ≡ spec.need_term (need_of need.now)) }
{
    match need {
        NeedOf::Register { reg, .. } => Ok(own_register(alloc, *reg)),
        NeedOf::Lost { reg, .. } => Ok(own_register(alloc, *reg)),
        NeedOf::Access { address, .. } => address.term().copy(alloc),
        NeedOf::Divisor { term } => term.term().copy(alloc),
        NeedOf::Symbol { name } => own_symbol(alloc, name),
    }
}

/// A need that the first side has not.
fn lacks(alloc: Global, need: &NeedOf) -> Result<Found, Memory>
    ensures { IfOk result (λ found. option_map difference_of found ≡
        Some (difference.Lacks (spec.need_term (need_of need.now)))) }
{
    Ok(Some(SymDifference::Lacks {
        term: need_term(alloc, need)?,
    }))
}

/// The first need of the second side that the first has not.
pub fn compared_needs(
    maker: &mut TermMaker,
    alloc: Global,
    had: &[SymNeed],
    asked: &[SymNeed],
) -> Result<Found, Memory>
    ensures { IfOk result (λ found. option_map difference_of found ≡
        spec.compared_needs (map need_at_of had.now) (map need_at_of asked.now)) }
{
    for need in asked {
        if !is_covered(maker, had, &need.what)? {
            return lacks(alloc, &need.what);
        }
    }
    Ok(None)
}
