//! Operators over two parts, and operations on constants.
ghost use Rattle.std.specs.Prelude.{◌≡◌, IfOk};
ghost use Rattle.term_tree.specs.Tree.{own_width as own_width_spec};
ghost use Rattle.term_tree.specs.View.{tree_of};
ghost use Rattle.term_cuts.specs.term_mean.Meaning as meaning;
ghost use Rattle.term_cuts.specs.term_mean.Shifts as spec;

use bits64::{Width, lt, ltu, sar, shl, shr};
use plain_data::{Items, Memory};
use rtx_tree::Name;
use std::alloc::Global;
use term_sums::{constant_of, constant_term};
use term_tree::{Head, Term};

/// An operator over two parts.
pub fn two_parts(alloc: Global, head: Head, w: Width, a: Term, b: Term) -> Result<Term, Memory>
    ensures { IfOk result (λ r. tree_of r ≡ spec.two_parts head w (tree_of a) (tree_of b)) }
{
    let mut parts = Items::new(alloc);
    parts.push(a)?;
    parts.push(b)?;
    Ok(Term::Node {
        head,
        width: w,
        number: 0,
        name: Name::empty(alloc),
        parts,
    })
}

/// An operator over two parts that are copied.
pub fn two_copies(alloc: Global, head: Head, w: Width, a: &Term, b: &Term) -> Result<Term, Memory>
    ensures { IfOk result (λ r. tree_of r ≡ spec.two_parts head w (tree_of a.now) (tree_of b.now)) }
{
    let left = a.copy(alloc)?;
    let right = b.copy(alloc)?;
    two_parts(alloc, head, w, left, right)
}

/// 1 where a test holds, and else 0.
pub fn truth(holds: bool) -> u64
    ensures { result ≡ meaning.truth holds }
{
    if holds { 1 } else { 0 }
}

/// The number of an operation on two numbers.
pub fn binary_number(head: Head, w: Width, x: u64, y: u64) -> u64
    ensures { result ≡ spec.binary_number head w x y }
{
    match head {
        Head::Opaque(operator) => operator.number(w, x, y),
        Head::Shl => shl(x, y, w),
        Head::Shr => shr(x, y, w),
        Head::Sar => sar(x, y, w),
        Head::Lt => truth(lt(x, y, w)),
        Head::Ltu => truth(ltu(x, y, w)),
        _ => 0,
    }
}

/// The number of an operation on two constants, or else the other term.
pub fn on_constants(
    alloc: Global,
    a: Option<u64>,
    b: Option<u64>,
    head: Head,
    w: Width,
    other: Term,
) -> Term
    ensures { tree_of result ≡ spec.on_constants a b head w (tree_of other) }
{
    match a {
        Some(x) => match b {
            Some(y) => constant_term(alloc, own_width(head, w), binary_number(head, w, x, y)),
            None => other,
        },
        None => other,
    }
}

/// The width of an operator's own number.
pub fn own_width(head: Head, w: Width) -> Width
    ensures { result ≡ own_width_spec head w }
{
    match head {
        Head::Lt | Head::Ltu | Head::Eq => Width::W8,
        _ => w,
    }
}
