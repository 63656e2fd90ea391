//! Whether a term is 0.
ghost use Rattle.std.specs.Prelude.{ℕ, ◌≡◌, ◌≤◌, ◌==◌, ◌&&◌, ◌-◌, ◌^◌, [], ◌∷◌, map, if◌then◌else◌, IfOk};
ghost use Rattle.bits64.specs.declared.Width.{Width};
ghost use Rattle.bits64.specs.Words.{bits_of, difference_of};
ghost use Rattle.term_tree.specs.declared.head.Head.TheVariants as heads;
ghost use Rattle.term_tree.specs.Tree.{Tree, trees_of, atoms_of, tree_size};
ghost use Rattle.term_tree.specs.Form.{same_width};
ghost use Rattle.term_tree.specs.Order.{numbers_cmp};
ghost use Rattle.term_tree.specs.View.{tree_of, atom_of};
ghost use Rattle.term_cuts.specs.term_mean.Sums.{minus as minus_spec, constant as constant_spec};
ghost use Rattle.term_cuts.specs.term_mean.Cuts.{one_part as one_part_spec};
ghost use Rattle.term_cuts.specs.term_mean.Zero as spec;
ghost use Rattle.term_zero.specs.machine.Rounds.{round_tree, zero_parted, xor_parts as xor_parts_spec};
ghost use Rattle.term_zero.specs.machine.Views.{operands_found, difference_found, parts_found};

use crate::constants::truth;
use crate::operands::{Operands, operands_in};
use crate::truths::{is_truth, opposite};
use bits64::{Width, sub, trunc};
use plain_data::Memory;
use std::alloc::Global;
use std::cmp::Ordering;
use term_cuts::{low_8, one_copy};
use term_sums::{constant_of, constant_term, minus, minus_one, negated};
use term_tree::{Atom, Head, Term, is_same_width};

/// The order of lists of numbers, from the left, fewer first.
fn compare_numbers(a: &[u64], b: &[u64]) -> Ordering
    ensures { result ≡ numbers_cmp a.now b.now }
{
    let mut left = a;
    let mut right = b;
    while let [x, xs @ ..] = left {
        let [y, ys @ ..] = right else {
            return Ordering::Greater;
        };
        match x.cmp(y) {
            Ordering::Less => return Ordering::Less,
            Ordering::Equal => {}
            Ordering::Greater => return Ordering::Greater,
        }
        left = xs;
        right = ys;
    }
    match right {
        [] => Ordering::Equal,
        [_y, ..] => Ordering::Less,
    }
}

fn numbers(alloc: Global, constant: u64, atoms: &[Atom]) -> Result<Vec<u64>, Memory>
    ensures { IfOk result (λ r. r.items ≡ spec.coefficients (atoms_of (map atom_of atoms.now))
        (constant ∷ [])) }
{
    let mut numbers = Vec::new(alloc);
    for atom in atoms {
        numbers.push(atom.coefficient)?;
    }
    numbers.push(constant)?;
    Ok(numbers)
}

fn one_and_none(alloc: Global) -> Result<Vec<u64>, Memory>
    ensures { IfOk result (λ r. r.items ≡ 1 ∷ 0 ∷ []) }
{
    let mut numbers = Vec::new(alloc);
    numbers.push(1)?;
    numbers.push(0)?;
    Ok(numbers)
}

/// The coefficients of a term, and then its constant.
fn numbers_of(alloc: Global, w: Width, t: &Term) -> Result<Vec<u64>, Memory>
    ensures { IfOk result (λ r. r.items ≡ spec.numbers_of w (tree_of t.now)) }
{
    match t {
        Term::Sum {
            width,
            constant,
            atoms,
        } => {
            if is_same_width(*width, w) {
                numbers(alloc, *constant, atoms.as_slice())
            } else {
                one_and_none(alloc)
            }
        }
        Term::Node { .. } => one_and_none(alloc),
    }
}

fn first_of(order: Ordering, t: Term, u: Term) -> Term
    ensures { tree_of result ≡ spec.first_of order (tree_of t) (tree_of u) }
{
    match order {
        Ordering::Greater => u,
        Ordering::Equal => t,
        Ordering::Less => t,
    }
}

/// Of `t` and `-t` the one whose coefficients, then constant, come first.
fn nearer(alloc: Global, w: Width, t: &Term) -> Result<Term, Memory>
    ensures { IfOk result (λ r. tree_of r ≡ spec.nearer w (tree_of t.now)) }
{
    let other = negated(alloc, w, t)?;
    let here = numbers_of(alloc, w, t)?;
    let there = numbers_of(alloc, w, &other)?;
    let order = compare_numbers(here.as_slice(), there.as_slice());
    let same = t.copy(alloc)?;
    Ok(first_of(order, same, other))
}

/// Two terms, of which the difference is meant.
#[derive(Drop)]
struct Difference {
    left: Term,
    right: Term,
}

fn from_zero(alloc: Global, w: Width, t: &Term) -> Result<Difference, Memory>
    ensures { IfOk result (λ r. difference_found r ≡ spec.from_zero w (tree_of t.now)) }
{
    let left = t.copy(alloc)?;
    Ok(Difference {
        left,
        right: constant_term(alloc, w, 0),
    })
}

/// What an atom with a constant is the difference of, where its coefficient is 1.
fn from_constant(
    alloc: Global,
    w: Width,
    v: Width,
    constant: u64,
    x: &Atom,
    t: &Term,
) -> Result<Difference, Memory>
    ensures { IfOk result (λ r. difference_found r ≡
        (if same_width v w && x.now.coefficient == 1 then
        (tree_of x.now.term, constant_spec w (difference_of w 0 constant)) else
        spec.from_zero w (tree_of t.now))) }
{
    if !(is_same_width(v, w) && x.coefficient == 1) {
        return from_zero(alloc, w, t);
    }
    let left = x.term.copy(alloc)?;
    Ok(Difference {
        left,
        right: constant_term(alloc, w, sub(0, constant, w)),
    })
}

/// What two atoms are the difference of, where the second is taken away.
fn from_atom(
    alloc: Global,
    w: Width,
    v: Width,
    constant: u64,
    x: &Atom,
    y: &Atom,
    t: &Term,
) -> Result<Difference, Memory>
    ensures { IfOk result (λ r. difference_found r ≡
        (if same_width v w && (constant == 0 && (x.now.coefficient == 1 &&
        y.now.coefficient == 2 ^ bits_of w - 1)) then
        (tree_of x.now.term, tree_of y.now.term) else spec.from_zero w (tree_of t.now))) }
{
    if !(is_same_width(v, w)
        && (constant == 0 && (x.coefficient == 1 && y.coefficient == minus_one(w))))
    {
        return from_zero(alloc, w, t);
    }
    let left = x.term.copy(alloc)?;
    let right = y.term.copy(alloc)?;
    Ok(Difference { left, right })
}

/// The term as a difference.
#[tactic(auto, using(term_tree::proofs::ViewLaws::view_laws))]
fn as_difference(alloc: Global, w: Width, t: &Term) -> Result<Difference, Memory>
    ensures { IfOk result (λ r. difference_found r ≡ spec.as_difference w (tree_of t.now)) }
{
    match t {
        Term::Node { .. } => from_zero(alloc, w, t),
        Term::Sum {
            width,
            constant,
            atoms,
        } => match atoms.as_slice() {
            [] => from_zero(alloc, w, t),
            [x] => from_constant(alloc, w, *width, *constant, x, t),
            [x, y] => from_atom(alloc, w, *width, *constant, x, y, t),
            [_x, _y, _z, ..] => from_zero(alloc, w, t),
        },
    }
}

/// What one round of the test comes to.
#[derive(Drop)]
pub enum Round {
    /// The answer.
    Done { answer: Term },
    /// The test of another term.
    Next { width: Width, term: Term },
}

/// The test as it stands.
fn ended(alloc: Global, w: Width, t: &Term) -> Result<Round, Memory>
    ensures { (again : Width → Tree → Tree) →
        IfOk result (λ r. round_tree again r ≡ one_part_spec heads.Eq w (tree_of t.now)) }
{
    let answer = one_copy(alloc, Head::Eq, w, t)?;
    Ok(Round::Done { answer })
}

/// The test of a difference.
fn next_minus(alloc: Global, w: Width, a: &Term, b: &Term) -> Result<Round, Memory>
    ensures { (again : Width → Tree → Tree) →
        IfOk result (λ r. round_tree again r ≡ again w
        (minus_spec w (tree_of a.now) (tree_of b.now))) }
{
    let left = a.copy(alloc)?;
    let term = minus(alloc, w, left, b)?;
    Ok(Round::Next { width: w, term })
}

/// One round of the test: of the difference of two extensions it is that of what they extend.
fn round_extended(
    alloc: Global,
    operands: Option<Operands>,
    w: Width,
    t: &Term,
) -> Result<Round, Memory>
    ensures { (again : Width → Tree → Tree) →
        IfOk result (λ r. round_tree again r ≡ spec.zero_extended_test
        (operands_found operands) again w (tree_of t.now)) }
{
    match operands {
        None => ended(alloc, w, t),
        Some(x) => next_minus(alloc, x.width, &x.left, &x.right),
    }
}

fn round_difference(alloc: Global, w: Width, t: &Term) -> Result<Round, Memory>
    ensures { (again : Width → Tree → Tree) →
        IfOk result (λ r. round_tree again r ≡ spec.zero_difference again w (tree_of t.now)) }
{
    let difference = as_difference(alloc, w, t)?;
    let operands = operands_in(alloc, w, &difference.left, &difference.right)?;
    round_extended(alloc, operands, w, t)
}

/// The two parts of an exclusive or of the width.
fn xor_parts(alloc: Global, w: Width, t: &Term) -> Result<Option<Difference>, Memory>
    ensures { IfOk result (λ r. parts_found r ≡ xor_parts_spec w (tree_of t.now)) }
{
    match t {
        Term::Sum { .. } => Ok(None),
        Term::Node {
            head,
            width,
            number: _,
            name: _,
            parts,
        } => match head {
            Head::Xor => match parts.as_slice() {
                [a, b] => parts_if(alloc, is_same_width(*width, w), a, b),
                [] => Ok(None),
                [_a] => Ok(None),
                [_a, _b, _c, ..] => Ok(None),
            },
            _ => Ok(None),
        },
    }
}

fn parts_if(alloc: Global, is: bool, a: &Term, b: &Term) -> Result<Option<Difference>, Memory>
    ensures { IfOk result (λ r. parts_found r ≡
        (if is then Some (tree_of a.now, tree_of b.now) else None)) }
{
    if !is {
        return Ok(None);
    }
    let left = a.copy(alloc)?;
    let right = b.copy(alloc)?;
    Ok(Some(Difference { left, right }))
}

fn round_parted(
    alloc: Global,
    parts: Option<Difference>,
    w: Width,
    t: &Term,
) -> Result<Round, Memory>
    ensures { (again : Width → Tree → Tree) →
        IfOk result (λ r. round_tree again r ≡ zero_parted (parts_found parts) again w
        (tree_of t.now)) }
{
    match parts {
        None => round_difference(alloc, w, t),
        Some(x) => next_minus(alloc, w, &x.left, &x.right),
    }
}

/// One round of the test: of an exclusive or of two parts it is that of their difference.
fn round_xor(alloc: Global, w: Width, t: &Term) -> Result<Round, Memory>
    ensures { (again : Width → Tree → Tree) →
        IfOk result (λ r. round_tree again r ≡ spec.zero_xor again w (tree_of t.now)) }
{
    let parts = xor_parts(alloc, w, t)?;
    round_parted(alloc, parts, w, t)
}

/// One round of the test: of a truth it is the opposite.
fn round_truth(alloc: Global, w: Width, t: &Term) -> Result<Round, Memory>
    ensures { (again : Width → Tree → Tree) →
        IfOk result (λ r. round_tree again r ≡ spec.zero_truth again w (tree_of t.now)) }
{
    if is_truth(t) {
        let low = low_8(alloc, t)?;
        let answer = opposite(alloc, low)?;
        Ok(Round::Done { answer })
    } else {
        round_xor(alloc, w, t)
    }
}

/// One round of the test: of a constant its number decides.
fn round_chosen(alloc: Global, w: Width, t: &Term) -> Result<Round, Memory>
    ensures { (again : Width → Tree → Tree) →
        IfOk result (λ r. round_tree again r ≡ spec.zero_chosen again w (tree_of t.now)) }
{
    match constant_of(t) {
        Some(c) => Ok(Round::Done {
            answer: constant_term(alloc, Width::W8, truth(trunc(c, w) == 0)),
        }),
        None => round_truth(alloc, w, t),
    }
}

/// One round of the test.
fn one_round(alloc: Global, w: Width, t: &Term) -> Result<Round, Memory>
    ensures { (again : Width → Tree → Tree) →
        IfOk result (λ r. round_tree again r ≡ spec.zero_chosen again w
        (spec.nearer w (tree_of t.now))) }
{
    let chosen = nearer(alloc, w, t)?;
    round_chosen(alloc, w, &chosen)
}

/// Whether a term of `w` bits is 0.
///
/// Each round that goes on takes an operator away, so more rounds than the term has nodes would
/// change nothing.
#[tactic(auto, using(crate::proofs::Means::zero_ends))]
pub fn equals_zero(alloc: Global, w: Width, t: &Term) -> Result<Term, Memory>
    ensures test { IfOk result (λ r. tree_of r ≡ spec.equals_zero w (tree_of t.now)) }
    ensures ends { (n : ℕ) → tree_size (tree_of t.now) ≤ n →
        IfOk result (λ r. tree_of r ≡ spec.zero_test n w (tree_of t.now)) }
{
    rounds(alloc, w, t)
}

/// Rounds up to the answer.
fn rounds(alloc: Global, w: Width, t: &Term) -> Result<Term, Memory>
    ensures { IfOk result (λ r. tree_of r ≡ spec.equals_zero w (tree_of t.now)) }
{
    let mut width = w;
    let mut term = t.copy(alloc)?;
    loop {
        match one_round(alloc, width, &term)? {
            Round::Done { answer } => return Ok(answer),
            Round::Next {
                width: v,
                term: next,
            } => {
                width = v;
                term = next;
            }
        }
    }
}
