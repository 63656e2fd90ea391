//! Reservations, as forms define them.
ghost use Rattle.std.specs.Prelude.{◌≡◌, IfOk, option_and_then};
ghost use Rattle.std.specs.List.{filter_map};
ghost use Rattle.lisp_read.specs.Shape.{atom_of};
ghost use Rattle.md_dfa.specs.Reservations as spec;

use crate::test::{Test, test_in};
use dfa_ways::{Ways, ways_of};
use lisp_read::{Tree, atom, is_word, items, string};
use md_forms::Entry;
use md_text::operand_number;
use plain_data::{Items, Memory};
use rtx_tree::{MOST_LATENCY, Name};
use std::alloc::Global;

/// A reservation: which instructions it is of, how many cycles they take, and which units.
#[derive(Drop)]
pub struct Reservation {
    /// How many cycles later what an instruction sets may be read.
    pub latency: u32,
    /// Which instructions it is of.
    pub test: Test,
    /// The ways in which they take units, in the order in which they are tried.
    pub ways: Ways,
}

/// The number that a text writes, from 0 to 1,000.
#[tactic(auto, unfolding(crate::specs::Reservations::latency_of))]
fn latency_of(text: &[u8]) -> Option<u32>
    ensures { result ≡ spec.latency_of text.now }
{
    let latency = operand_number(text)?;
    if latency <= MOST_LATENCY {
        Some(latency)
    } else {
        None
    }
}

/// The latency that a tree writes.
fn latency_in(tree: &Tree) -> Option<u32>
    ensures { result ≡ option_and_then spec.latency_of (atom_of tree.now) }
{
    latency_of(atom(tree)?.bytes())
}

/// A reservation of the trees of its latency and its test, and the text of its expression.
#[tactic(auto, unfolding(crate::specs::Reservations::reservation_with))]
fn reservation_with(
    alloc: Global,
    units: &[Name],
    latency: &Tree,
    test: &Tree,
    expression: &[u8],
) -> Result<Option<Reservation>, Memory>
    ensures { IfOk result (λ reservation.
        reservation ≡ spec.reservation_with units.now latency.now test.now expression.now) }
{
    let Some(latency) = latency_in(latency) else {
        return Ok(None);
    };
    let Some(test) = test_in(alloc, test)? else {
        return Ok(None);
    };
    match ways_of(alloc, units, expression)? {
        Some(ways) => Ok(Some(Reservation {
            latency,
            test,
            ways,
        })),
        None => Ok(None),
    }
}

/// `(define_insn_reservation "NAME" LATENCY TEST "EXPRESSION")`
#[tactic(auto, unfolding(crate::specs::Reservations::reservation_in))]
fn reservation_in(
    alloc: Global,
    units: &[Name],
    form: &Entry,
) -> Result<Option<Reservation>, Memory>
    ensures { IfOk result (λ reservation.
        reservation ≡ spec.reservation_in units.now form.now) }
{
    let Some(tree) = &form.timing else {
        return Ok(None);
    };
    match items(tree) {
        [head, name, latency, test, expression] if is_word(head, b"define_insn_reservation") => {
            match (string(name), string(expression)) {
                (Some(_), Some(text)) => {
                    reservation_with(alloc, units, latency, test, text.bytes())
                }
                _ => Ok(None),
            }
        }
        _ => Ok(None),
    }
}

/// The reservations that some forms define over some units, in order.
#[tactic(auto, using(crate::proofs::ListLaws::found, crate::proofs::ListLaws::passed, crate::proofs::ListLaws::ended))]
pub fn reservations_of(
    alloc: Global,
    units: &[Name],
    forms: &[Entry],
) -> Result<Items<Reservation>, Memory>
    ensures { IfOk result (λ all. all ≡ filter_map (spec.reservation_in units.now) forms.now) }
{
    let mut all = Items::new(alloc);
    for form in forms {
        if let Some(reservation) = reservation_in(alloc, units, form)? {
            all.push(reservation)?;
        }
    }
    Ok(all)
}
