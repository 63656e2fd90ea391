//! What is made of terms by one step of the rules: operators, sums, and truths in a width.
ghost use Rattle.std.specs.Prelude.{◌≡◌, [], ◌∷◌, map, IfOk};
ghost use Rattle.bits64.specs.Operators.{opaque_taking};
ghost use Rattle.term_tree.specs.View.{tree_of};
ghost use Rattle.sym_term.specs.term_mean.Sums as sums;
ghost use Rattle.sym_term.specs.Views.{store_of};
ghost use Rattle.sym_state.specs.Makers as spec;

use bits64::{Opaque, Operator, Relation, Taking, Width};
use plain_data::Memory;
use rtx_tree::Name;
use std::alloc::Global;
use sym_term::{SymStores, TermMaker};
use term_sums::minus_one;
use term_tree::{Atom, Head, Term, is_same_width};

/// An operator of one part.
pub fn one(
    maker: &mut TermMaker,
    alloc: Global,
    stores: &SymStores,
    head: Head,
    w: Width,
    a: Term,
) -> Result<Term, Memory>
    ensures { IfOk result (λ r. tree_of r ≡ spec.one (map store_of stores.now) head w (tree_of a)) }
{
    let mut parts = Vec::new(alloc);
    parts.push(a)?;
    maker.built(stores, head, w, 0, Name::empty(alloc), parts)
}

/// An operator of two parts.
fn two(
    maker: &mut TermMaker,
    alloc: Global,
    stores: &SymStores,
    head: Head,
    w: Width,
    a: Term,
    b: Term,
) -> Result<Term, Memory>
    ensures { IfOk result (λ r. tree_of r ≡ spec.two (map store_of stores.now) head w (tree_of a)
        (tree_of b)) }
{
    let mut parts = Vec::new(alloc);
    parts.push(a)?;
    parts.push(b)?;
    maker.built(stores, head, w, 0, Name::empty(alloc), parts)
}

/// A constant less a term.
fn less_one(
    maker: &mut TermMaker,
    alloc: Global,
    w: Width,
    constant: u64,
    a: Term,
) -> Result<Term, Memory>
    ensures { IfOk result (λ r. tree_of r
        ≡ sums.summed w constant ((spec.minus_one w, tree_of a) ∷ [])) }
{
    let mut atoms = Vec::new(alloc);
    atoms.push(Atom {
        coefficient: minus_one(w),
        term: a,
    })?;
    maker.summed(w, constant, atoms.as_slice())
}

/// A term, and another with a coefficient.
fn sum(
    maker: &mut TermMaker,
    alloc: Global,
    w: Width,
    a: Term,
    coefficient: u64,
    b: Term,
) -> Result<Term, Memory>
    ensures { IfOk result (λ r. tree_of r
        ≡ sums.summed w 0 ((1, tree_of a) ∷ (coefficient, tree_of b) ∷ [])) }
{
    let mut atoms = Vec::new(alloc);
    atoms.push(Atom {
        coefficient: 1,
        term: a,
    })?;
    atoms.push(Atom {
        coefficient,
        term: b,
    })?;
    maker.summed(w, 0, atoms.as_slice())
}

/// A truth in a width.
fn truth_in(
    maker: &mut TermMaker,
    alloc: Global,
    stores: &SymStores,
    w: Width,
    t: Term,
) -> Result<Term, Memory>
    ensures { IfOk result (λ r. tree_of r ≡ spec.truth_in (map store_of stores.now) w (tree_of t)) }
{
    if is_same_width(w, Width::W8) {
        Ok(t)
    } else {
        one(maker, alloc, stores, Head::Zext, w, t)
    }
}

/// A comparison: its relation, the width of its operands, and the width of its result.
#[derive(Clone, Copy)]
pub struct Comparison {
    /// The relation.
    pub relation: Relation,
    /// The width of the operands.
    pub operand: Width,
    /// The width of the result.
    pub width: Width,
}

/// The truth of a comparison of two terms.
pub fn related(
    maker: &mut TermMaker,
    alloc: Global,
    stores: &SymStores,
    comparison: Comparison,
    a: Term,
    b: Term,
) -> Result<Term, Memory>
    ensures { IfOk result (λ r. tree_of r
        ≡ spec.related (map store_of stores.now) comparison.relation comparison.operand
        comparison.width (tree_of a) (tree_of b)) }
{
    let truth = maker.compared(comparison.relation, comparison.operand, a, b)?;
    truth_in(maker, alloc, stores, comparison.width, truth)
}

/// An operator of which nothing else is known, over one term or two.
fn opaque_term(
    maker: &mut TermMaker,
    alloc: Global,
    stores: &SymStores,
    operator: Opaque,
    w: Width,
    a: Term,
    b: Term,
) -> Result<Term, Memory>
    ensures { IfOk result (λ r. tree_of r ≡ spec.opaque_term (opaque_taking operator)
        (map store_of stores.now) operator w (tree_of a) (tree_of b)) }
{
    let head = Head::Opaque(operator);
    match operator.taking() {
        Taking::Alone => one(maker, alloc, stores, head, w, a),
        Taking::Pair | Taking::Counted => two(maker, alloc, stores, head, w, a, b),
    }
}

/// What an operator makes of two terms; where it takes one number, the second counts for nothing.
pub fn term_of(
    maker: &mut TermMaker,
    alloc: Global,
    stores: &SymStores,
    operator: Operator,
    w: Width,
    a: Term,
    b: Term,
) -> Result<Term, Memory>
    ensures { IfOk result (λ r. tree_of r
        ≡ spec.term_of (map store_of stores.now) operator w (tree_of a) (tree_of b)) }
{
    match operator {
        Operator::Add => sum(maker, alloc, w, a, 1, b),
        Operator::Sub => sum(maker, alloc, w, a, minus_one(w), b),
        Operator::Neg => less_one(maker, alloc, w, 0, a),
        Operator::Not => less_one(maker, alloc, w, minus_one(w), a),
        Operator::Mul => two(maker, alloc, stores, Head::Mul, w, a, b),
        Operator::And => two(maker, alloc, stores, Head::And, w, a, b),
        Operator::Ior => two(maker, alloc, stores, Head::Ior, w, a, b),
        Operator::Xor => two(maker, alloc, stores, Head::Xor, w, a, b),
        Operator::Shl => two(maker, alloc, stores, Head::Shl, w, a, b),
        Operator::Shr => two(maker, alloc, stores, Head::Shr, w, a, b),
        Operator::Sar => two(maker, alloc, stores, Head::Sar, w, a, b),
        Operator::Test(relation) => {
            let comparison = Comparison {
                relation,
                operand: w,
                width: w,
            };
            related(maker, alloc, stores, comparison, a, b)
        }
        Operator::Opaque(operator) => opaque_term(maker, alloc, stores, operator, w, a, b),
    }
}
