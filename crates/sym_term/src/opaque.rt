//! Operators of which nothing is known but their numbers.
ghost use Rattle.std.specs.Prelude.{◌≡◌, IfOk};
ghost use Rattle.bits64.specs.Operators.{opaque_taking};
ghost use Rattle.term_tree.specs.View.{tree_of};
ghost use Rattle.term_cuts.specs.term_mean.Shifts as spec;

use bits64::{Opaque, Taking, Width};
use plain_data::Memory;
use std::alloc::Global;
use term_cuts::{low_8, one_part};
use term_sums::{constant_of, constant_term};
use term_tree::{Head, Term};
use term_zero::{on_constants, two_parts};

/// What one makes of one part.
pub fn opaque_one(alloc: Global, operator: Opaque, w: Width, a: Term) -> Result<Term, Memory>
    ensures { IfOk result (λ r. tree_of r ≡ spec.opaque_one operator w (tree_of a)) }
{
    match constant_of(&a) {
        Some(x) => Ok(constant_term(alloc, w, operator.number(w, x, 0))),
        None => one_part(alloc, Head::Opaque(operator), w, a),
    }
}

fn plain_two(alloc: Global, operator: Opaque, w: Width, a: Term, b: Term) -> Result<Term, Memory>
    ensures { IfOk result (λ r. tree_of r ≡ spec.plain_two operator w (tree_of a) (tree_of b)) }
{
    let head = Head::Opaque(operator);
    let left = constant_of(&a);
    let right = constant_of(&b);
    let other = two_parts(alloc, head, w, a, b)?;
    Ok(on_constants(alloc, left, right, head, w, other))
}

/// What one makes of two parts: a count is cut to 8 bits first.
pub fn opaque_two(
    alloc: Global,
    operator: Opaque,
    w: Width,
    a: Term,
    b: Term,
) -> Result<Term, Memory>
    ensures { IfOk result (λ r. tree_of r
        ≡ spec.opaque_two (opaque_taking operator) operator w (tree_of a) (tree_of b)) }
{
    match operator.taking() {
        Taking::Alone | Taking::Pair => plain_two(alloc, operator, w, a, b),
        Taking::Counted => {
            let count = low_8(alloc, &b)?;
            plain_two(alloc, operator, w, a, count)
        }
    }
}
