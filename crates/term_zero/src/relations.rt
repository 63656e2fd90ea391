//! Comparisons of two terms, as terms of 8 bits that are not in normal form.
ghost use Rattle.std.specs.Prelude.{◌≡◌, ℕ, IfOk};
ghost use Rattle.term_tree.specs.View.{tree_of};
ghost use Rattle.term_cuts.specs.term_mean.Meaning.{Valuation, mean, truth};
ghost use Rattle.term_tree.specs.declared.head.Head.TheVariants as heads;
ghost use Rattle.term_cuts.specs.term_mean.Cuts.{one_part as one_part_spec};
ghost use Rattle.term_cuts.specs.term_mean.Shifts.{two_parts as two_parts_spec};
ghost use Rattle.bits64.specs.Operators.{holds};
ghost use Rattle.term_cuts.specs.term_mean.Relations as spec;

use crate::constants::two_parts;
use bits64::{Relation, Width};
use plain_data::{Items, Memory};
use std::alloc::Global;
use term_cuts::one_part;
use term_sums::minus_one;
use term_tree::{Atom, Head, Term};

fn difference(alloc: Global, w: Width, a: Term, b: Term) -> Result<Term, Memory>
    ensures { IfOk result (λ r. tree_of r ≡ spec.difference w (tree_of a) (tree_of b)) }
{
    let mut atoms = Items::new(alloc);
    atoms.push(Atom {
        coefficient: 1,
        term: a,
    })?;
    atoms.push(Atom {
        coefficient: minus_one(w),
        term: b,
    })?;
    Ok(Term::Sum {
        width: w,
        constant: 0,
        atoms,
    })
}

fn equal(alloc: Global, w: Width, a: Term, b: Term) -> Result<Term, Memory>
    ensures { IfOk result (λ r. tree_of r ≡ one_part_spec heads.Eq w
        (spec.difference w (tree_of a) (tree_of b))) }
{
    let difference = difference(alloc, w, a, b)?;
    one_part(alloc, Head::Eq, w, difference)
}

/// The exclusive or of 1 and a truth.
fn opposite_of(alloc: Global, t: Term) -> Result<Term, Memory>
    ensures { IfOk result (λ r. tree_of r ≡ spec.opposite_of (tree_of t)) }
{
    let one = Term::Sum {
        width: Width::W8,
        constant: 1,
        atoms: Items::new(alloc),
    };
    two_parts(alloc, Head::Xor, Width::W8, one, t)
}

fn opposite_less(alloc: Global, head: Head, w: Width, a: Term, b: Term) -> Result<Term, Memory>
    ensures { IfOk result (λ r. tree_of r ≡ spec.opposite_of
        (two_parts_spec head w (tree_of a) (tree_of b))) }
{
    let less = two_parts(alloc, head, w, a, b)?;
    opposite_of(alloc, less)
}

fn not_equal(alloc: Global, w: Width, a: Term, b: Term) -> Result<Term, Memory>
    ensures { IfOk result (λ r. tree_of r ≡ spec.opposite_of
        (one_part_spec heads.Eq w (spec.difference w (tree_of a) (tree_of b)))) }
{
    let equal = equal(alloc, w, a, b)?;
    opposite_of(alloc, equal)
}

fn related(alloc: Global, relation: Relation, w: Width, a: Term, b: Term) -> Result<Term, Memory>
    ensures { IfOk result (λ r. tree_of r ≡ spec.related relation w (tree_of a) (tree_of b)) }
{
    match relation {
        Relation::Eq => equal(alloc, w, a, b),
        Relation::Ne => not_equal(alloc, w, a, b),
        Relation::Lt => two_parts(alloc, Head::Lt, w, a, b),
        Relation::Gt => two_parts(alloc, Head::Lt, w, b, a),
        Relation::Le => opposite_less(alloc, Head::Lt, w, b, a),
        Relation::Ge => opposite_less(alloc, Head::Lt, w, a, b),
        Relation::Ltu => two_parts(alloc, Head::Ltu, w, a, b),
        Relation::Gtu => two_parts(alloc, Head::Ltu, w, b, a),
        Relation::Leu => opposite_less(alloc, Head::Ltu, w, b, a),
        Relation::Geu => opposite_less(alloc, Head::Ltu, w, a, b),
    }
}

/// A comparison of two terms of `w` bits: 1 where the relation holds, and else 0.
#[tactic(auto, using(crate::proofs::Means::related_means))]
pub fn relate(alloc: Global, relation: Relation, w: Width, a: Term, b: Term) -> Result<Term, Memory>
    ensures term { IfOk result (λ r. tree_of r ≡ spec.related relation w (tree_of a) (tree_of b)) }
    ensures meaning { (v : Valuation) →
        IfOk result (λ r. mean v (tree_of r) ≡ truth (holds relation w (mean v (tree_of a))
        (mean v (tree_of b)))) }
{
    related(alloc, relation, w, a, b)
}
