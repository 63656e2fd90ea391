//! Whether a number is less than another.
ghost use Rattle.std.specs.Prelude.{ℕ, ◌≡◌, ◌≤◌, IfOk};
ghost use Rattle.term_tree.specs.declared.head.Extension.TheVariants.{Zero};
ghost use Rattle.term_tree.specs.View.{tree_of};
ghost use Rattle.term_cuts.specs.term_mean.Less as spec;
ghost use Rattle.term_zero.specs.machine.Views.{operands_found};

use crate::constants::{on_constants, two_copies};
use crate::operands::{Operands, operands_in};
use crate::truths::opposite;
use crate::zero::equals_zero;
use bits64::Width;
use plain_data::Memory;
use std::alloc::Global;
use std::cmp::Ordering;
use term_sums::{constant_of, constant_term};
use term_tree::{Extension, Head, Term, compare};

/// The signed comparison, and the unsigned one.
fn less_head(e: Extension) -> Head
    ensures { result ≡ spec.less_head e }
{
    match e {
        Extension::Sign => Head::Lt,
        Extension::Zero => Head::Ltu,
    }
}

fn is_number(c: Option<u64>, n: u64) -> bool
    ensures { result ≡ spec.is_number c n }
{
    match c {
        Some(c) => c == n,
        None => false,
    }
}

/// Unsigned, below 1 is 0, and above 0 is not 0.
fn less_bounds_unsigned(alloc: Global, w: Width, a: &Term, b: &Term) -> Result<Term, Memory>
    ensures { IfOk result (λ r. tree_of r ≡ spec.less_bounds_unsigned w (tree_of a.now)
        (tree_of b.now)) }
{
    if is_number(constant_of(b), 1) {
        return equals_zero(alloc, w, a);
    }
    if is_number(constant_of(a), 0) {
        let test = equals_zero(alloc, w, b)?;
        return opposite(alloc, test);
    }
    two_copies(alloc, Head::Ltu, w, a, b)
}

fn less_bounds(alloc: Global, e: Extension, w: Width, a: &Term, b: &Term) -> Result<Term, Memory>
    ensures { IfOk result (λ r. tree_of r ≡ spec.less_bounds e w (tree_of a.now) (tree_of b.now)) }
{
    match e {
        Extension::Sign => two_copies(alloc, Head::Lt, w, a, b),
        Extension::Zero => less_bounds_unsigned(alloc, w, a, b),
    }
}

/// Extensions by the sign keep both orders, and those by zeros the unsigned one.
fn less_kind(e: Extension, kind: Extension) -> Extension
    ensures { result ≡ spec.less_kind e kind }
{
    match e {
        Extension::Sign => match kind {
            Extension::Sign => Extension::Sign,
            Extension::Zero => Extension::Zero,
        },
        Extension::Zero => match kind {
            Extension::Sign => Extension::Zero,
            Extension::Zero => Extension::Zero,
        },
    }
}

/// A comparison by less: of two extensions it is that of what they extend.
#[cycle(less)]
fn less_extended(
    alloc: Global,
    operands: Option<Operands>,
    rounds: u32,
    e: Extension,
    w: Width,
    a: &Term,
    b: &Term,
) -> Result<Term, Memory>
    ensures { IfOk result (λ r. tree_of r ≡ spec.less_extended (operands_found operands)
        (spec.less_test rounds) e w (tree_of a.now) (tree_of b.now)) }
{
    match operands {
        None => less_bounds(alloc, e, w, a, b),
        Some(x) => less_test(
            alloc,
            rounds,
            less_kind(e, x.kind),
            x.width,
            &x.left,
            &x.right,
        ),
    }
}

/// Nothing is less than itself.
#[cycle(less)]
fn less_unless(
    alloc: Global,
    order: Ordering,
    rounds: u32,
    e: Extension,
    w: Width,
    a: &Term,
    b: &Term,
) -> Result<Term, Memory>
    ensures { IfOk result (λ r. tree_of r ≡ spec.less_unless order (spec.less_test rounds) e w
        (tree_of a.now) (tree_of b.now)) }
{
    match order {
        Ordering::Equal => Ok(constant_term(alloc, Width::W8, 0)),
        Ordering::Less => {
            let operands = operands_in(alloc, w, a, b)?;
            less_extended(alloc, operands, rounds, e, w, a, b)
        }
        Ordering::Greater => {
            let operands = operands_in(alloc, w, a, b)?;
            less_extended(alloc, operands, rounds, e, w, a, b)
        }
    }
}

/// A comparison in so many rounds.
#[cycle(less)]
#[tactic(auto, using(crate::proofs::Means::less_rounds))]
fn less_test(
    alloc: Global,
    rounds: u32,
    e: Extension,
    w: Width,
    a: &Term,
    b: &Term,
) -> Result<Term, Memory>
    ensures { IfOk result (λ r. tree_of r ≡ spec.less_test rounds e w (tree_of a.now)
        (tree_of b.now)) }
{
    if rounds == 0 {
        return two_copies(alloc, less_head(e), w, a, b);
    }
    let other = less_unless(alloc, compare(a, b), rounds - 1, e, w, a, b)?;
    Ok(on_constants(
        alloc,
        constant_of(a),
        constant_of(b),
        less_head(e),
        w,
        other,
    ))
}

/// Whether `a` is less than `b`, by the sign or not.
///
/// The rules go on at narrower widths alone, so more than four rounds would change nothing.
#[tactic(auto, using(crate::proofs::Means::less_ends))]
pub fn less_than(alloc: Global, e: Extension, w: Width, a: &Term, b: &Term) -> Result<Term, Memory>
    ensures comparison { IfOk result (λ r.
        tree_of r ≡ spec.less_than e w (tree_of a.now) (tree_of b.now)) }
    ensures ends { (n : ℕ) → 4 ≤ n →
        IfOk result (λ r. tree_of r ≡ spec.less_test n e w (tree_of a.now) (tree_of b.now)) }
{
    less_test(alloc, 4, e, w, a, b)
}
