//! Truths, which are 0 or 1, and their opposites.
ghost use Rattle.std.specs.Prelude.{◌≡◌, map, IfOk};
ghost use Rattle.term_tree.specs.Tree.{trees_of};
ghost use Rattle.term_tree.specs.View.{tree_of};
ghost use Rattle.term_cuts.specs.term_mean.Truths as spec;

use bits64::Width;
use plain_data::Memory;
use std::alloc::Global;
use term_cuts::made_8;
use term_sums::constant_term;
use term_tree::{Head, Joint, Term};

/// Whether a term is the constant 1.
fn is_one(t: &Term) -> bool
    ensures { result ≡ spec.is_one (tree_of t.now) }
{
    match t {
        Term::Sum {
            width: _,
            constant,
            atoms,
        } => match atoms.as_slice() {
            [] => *constant == 1,
            [_x, ..] => false,
        },
        Term::Node { .. } => false,
    }
}

/// Whether a term is a truth: a comparison, an extension by zeros of a truth, or its opposite.
pub fn is_truth(t: &Term) -> bool
    ensures { result ≡ spec.is_truth (tree_of t.now) }
{
    match t {
        Term::Sum { .. } => false,
        Term::Node {
            head,
            width: _,
            number: _,
            name: _,
            parts,
        } => match head {
            Head::Lt | Head::Ltu | Head::Eq => true,
            Head::Zext => match parts.as_slice() {
                [p] => is_truth(p),
                [] => false,
                [_p, _q, ..] => false,
            },
            Head::Xor => match parts.as_slice() {
                [c, p] => is_one(c) && is_truth(p),
                [] => false,
                [_p] => false,
                [_p, _q, _r, ..] => false,
            },
            _ => false,
        },
    }
}

/// 1 where a truth of 8 bits is 0, and 0 where it is 1.
pub fn opposite(alloc: Global, t: Term) -> Result<Term, Memory>
    ensures { IfOk result (λ r. tree_of r ≡ spec.opposite (tree_of t)) }
{
    let mut parts = Vec::new(alloc);
    parts.push(constant_term(alloc, Width::W8, 1))?;
    parts.push(t)?;
    made_8(alloc, Joint::Xor, parts.as_slice())
}
