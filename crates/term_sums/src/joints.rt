//! Products, and, or and exclusive or, of gathered parts.
ghost use Rattle.std.specs.Prelude.{◌≡◌, ◌<◌, ◌≤◌, map, insert, remove, vec_len, OnOk, IfOk, IfErr};
ghost use Rattle.term_tree.specs.View.{tree_of};
ghost use Rattle.term_mean.specs.Sums as sums_spec;
ghost use Rattle.term_mean.specs.Joints as spec;
ghost use Rattle.term_sums.specs.machine.Places.{met_at, IsPartFound, IsPartMissing};

use crate::gathering::{Gathered, gather, head_of, start};
use crate::sums::{constant_term, minus_one, times};
use bits64::{Width, trunc};
use plain_data::{Items, Memory};
use rtx_tree::Name;
use std::alloc::Global;
use std::cmp::Ordering;
use term_tree::{Joint, Term, compare, is_same_width};

/// The place of `t` among the parts, or the place where it belongs.
fn place_of(t: &Term, parts: &[Term]) -> Result<usize, usize>
    ensures found { IfOk result (IsPartFound (tree_of t.now) (map tree_of parts.now)) }
    ensures missing { IfErr result (IsPartMissing (tree_of t.now) (map tree_of parts.now)) }
{
    for (i, x) in parts.iter().enumerate() {
        match compare(t, x) {
            Ordering::Greater => {}
            Ordering::Equal => return Ok(i),
            Ordering::Less => return Err(i),
        }
    }
    Err(parts.len())
}

fn put_at(parts: &mut Vec<Term>, place: usize, t: Term) -> Result<(), Memory>
    requires { place ≤ vec_len parts.old }
    ensures { OnOk result (map tree_of parts.new.items
        ≡ insert (map tree_of parts.old.items) place (tree_of t)) }
{
    parts.insert(place, t)?;
    Ok(())
}

fn remove_at(parts: &mut Vec<Term>, place: usize)
    requires { place < vec_len parts.old }
    ensures { map tree_of parts.new.items ≡ remove (map tree_of parts.old.items) place }
{
    parts.remove(place);
}

/// A part that was met again: a product has it twice, and an exclusive or has neither.
fn meet(o: Joint, parts: &mut Vec<Term>, place: usize, t: Term) -> Result<(), Memory>
    requires { place < vec_len parts.old }
    ensures { OnOk result (map tree_of parts.new.items
        ≡ met_at o (tree_of t) (map tree_of parts.old.items) place) }
{
    match o {
        Joint::Mul => put_at(parts, place, t),
        Joint::And | Joint::Ior => Ok(()),
        Joint::Xor => {
            remove_at(parts, place);
            Ok(())
        }
    }
}

/// One more part, in order.
fn put_part(o: Joint, parts: &mut Vec<Term>, t: Term) -> Result<(), Memory>
    ensures { OnOk result (map tree_of parts.new.items
        ≡ spec.with_part o (tree_of t) (map tree_of parts.old.items)) }
{
    match place_of(&t, parts) {
        Ok(place) => meet(o, parts, place, t),
        Err(place) => put_at(parts, place, t),
    }
}

/// Whether the constant is the result, whatever the other parts are.
fn does_absorb(o: Joint, w: Width, c: u64) -> bool
    ensures { result ≡ spec.absorbs o w c }
{
    match o {
        Joint::Mul | Joint::And => c == 0,
        Joint::Ior => c == minus_one(w),
        Joint::Xor => false,
    }
}

fn node_of(alloc: Global, o: Joint, w: Width, parts: Vec<Term>) -> Term
    ensures { tree_of result ≡ spec.node_of o w (map tree_of parts.items) }
{
    Term::Node {
        head: head_of(o),
        width: w,
        number: 0,
        name: Name::empty(alloc),
        parts: Items::from_vec(parts),
    }
}

/// Gathered with no constant.
pub fn plain(alloc: Global, o: Joint, w: Width, mut parts: Vec<Term>) -> Term
    ensures { tree_of result ≡ spec.plain o w (map tree_of parts.items) }
{
    if parts.is_empty() {
        return constant_term(alloc, w, start(o));
    }
    if parts.len() == 1 && is_same_width(parts[0].width(), w) {
        return parts.remove(0);
    }
    node_of(alloc, o, w, parts)
}

fn with_part(
    alloc: Global,
    o: Joint,
    w: Width,
    c: u64,
    mut parts: Vec<Term>,
) -> Result<Term, Memory>
    ensures { IfOk result (λ r. tree_of r ≡ spec.node_of o w
        (spec.with_part o (sums_spec.constant w c) (map tree_of parts.items))) }
{
    put_part(o, &mut parts, constant_term(alloc, w, c))?;
    Ok(node_of(alloc, o, w, parts))
}

fn scaled(alloc: Global, w: Width, c: u64, parts: Vec<Term>) -> Result<Term, Memory>
    ensures { IfOk result (λ r. tree_of r ≡ sums_spec.times w c
        (spec.plain Joint.Mul w (map tree_of parts.items))) }
{
    let product = plain(alloc, Joint::Mul, w, parts);
    times(alloc, w, c, &product)
}

fn with_constant(
    alloc: Global,
    o: Joint,
    w: Width,
    c: u64,
    parts: Vec<Term>,
) -> Result<Term, Memory>
    ensures { IfOk result (λ r. tree_of r ≡ spec.with_constant o w c (map tree_of parts.items)) }
{
    if parts.is_empty() {
        return Ok(constant_term(alloc, w, c));
    }
    match o {
        Joint::Mul => scaled(alloc, w, c, parts),
        Joint::And => with_part(alloc, o, w, c, parts),
        Joint::Ior => with_part(alloc, o, w, c, parts),
        Joint::Xor => with_part(alloc, o, w, c, parts),
    }
}

/// A constant and parts: an absorbing constant is the result, and a neutral one is dropped.
pub fn finished(alloc: Global, o: Joint, w: Width, c: u64, parts: Vec<Term>) -> Result<Term, Memory>
    ensures { IfOk result (λ r. tree_of r ≡ spec.finished o w c (map tree_of parts.items)) }
{
    if does_absorb(o, w, c) {
        Ok(constant_term(alloc, w, c))
    } else if c == trunc(start(o), w) {
        Ok(plain(alloc, o, w, parts))
    } else {
        with_constant(alloc, o, w, c, parts)
    }
}

/// A product or an operator on bits, of parts in normal form.
pub fn joined(alloc: Global, o: Joint, w: Width, terms: &[Term]) -> Result<Term, Memory>
    ensures { IfOk result (λ r. tree_of r ≡ spec.joined o w (map tree_of terms.now)) }
{
    let Gathered { constant, parts } = gather(alloc, o, w, terms)?;
    finished(alloc, o, w, trunc(constant, w), parts)
}
