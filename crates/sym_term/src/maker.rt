//! Terms in normal form, made of terms in normal form.
ghost use Rattle.std.specs.Prelude.{◌≡◌, ◌+◌, ◌↔◌, map, IfOk, IsTrue};
ghost use Rattle.bits64.specs.Words.{low};
ghost use Rattle.term_tree.specs.Tree.{Node, own_width, width_of, trees_of};
ghost use Rattle.term_tree.specs.Order.{tree_cmp};
ghost use Rattle.std.specs.Ordering.{is_eq};
ghost use Rattle.term_tree.specs.View.{tree_of, atom_of};
ghost use Rattle.term_cuts.specs.term_mean.Meaning.{Valuation, mean, truth};
ghost use Rattle.term_cuts.specs.term_mean.Stores.{Stored};
ghost use Rattle.term_cuts.specs.term_mean.Sums.{summed as summed_spec};
ghost use Rattle.bits64.specs.Operators.{holds};
ghost use Rattle.term_cuts.specs.term_mean.Compared.{same_in as same_in_spec, compared as compared_spec, low_bits as low_bits_spec};
ghost use Rattle.term_cuts.specs.term_mean.Normal.{built as built_spec};
ghost use Rattle.term_mean.proofs.SumLaws.{weight};
ghost use Rattle.sym_term.specs.Views.{store_of};
ghost use Rattle.sym_term.specs.machine.Kinds.{test_in, opposes, tested as tested_spec};

use crate::normal::build;
use crate::stores::SymStores;
use bits64::{Relation, Width};
use plain_data::Memory;
use rtx_tree::Name;
use std::alloc::Global;
use std::cmp::Ordering;
use term_cuts::cut_to;
use term_sums::{minus_one, summed};
use term_tree::{Atom, Extension, Head, Term, compare, is_same_width};
use term_zero::{equals_zero, less_than, opposite};

/// Whether `a - b` is 0.
fn same_in(alloc: Global, w: Width, a: Term, b: Term) -> Result<Term, Memory>
    ensures { IfOk result (λ r. tree_of r ≡ same_in_spec w (tree_of a) (tree_of b)) }
{
    let mut atoms = Vec::new(alloc);
    atoms.push(Atom {
        coefficient: 1,
        term: a,
    })?;
    atoms.push(Atom {
        coefficient: minus_one(w),
        term: b,
    })?;
    let difference = summed(alloc, w, 0, atoms.as_slice())?;
    equals_zero(alloc, w, &difference)
}

/// What a relation or its opposite tests: that two terms are the same, or that one is less.
#[derive(Clone, Copy)]
enum Test {
    Same,
    Less(Extension),
    Greater(Extension),
}

fn test_of(relation: Relation) -> Test
    ensures { result ≡ test_in relation }
{
    match relation {
        Relation::Eq | Relation::Ne => Test::Same,
        Relation::Lt | Relation::Ge => Test::Less(Extension::Sign),
        Relation::Gt | Relation::Le => Test::Greater(Extension::Sign),
        Relation::Ltu | Relation::Geu => Test::Less(Extension::Zero),
        Relation::Gtu | Relation::Leu => Test::Greater(Extension::Zero),
    }
}

/// Whether a relation is the opposite of its test.
fn is_opposite(relation: Relation) -> bool
    ensures { result ≡ opposes relation }
{
    match relation {
        Relation::Ne | Relation::Le | Relation::Ge | Relation::Leu | Relation::Geu => true,
        _ => false,
    }
}

fn tested(alloc: Global, test: Test, w: Width, a: Term, b: Term) -> Result<Term, Memory>
    ensures { IfOk result (λ r. tree_of r ≡ tested_spec test w (tree_of a) (tree_of b)) }
{
    match test {
        Test::Same => same_in(alloc, w, a, b),
        Test::Less(e) => less_than(alloc, e, w, &a, &b),
        Test::Greater(e) => less_than(alloc, e, w, &b, &a),
    }
}

fn compared(alloc: Global, relation: Relation, w: Width, a: Term, b: Term) -> Result<Term, Memory>
    ensures { IfOk result (λ r. tree_of r ≡ compared_spec relation w (tree_of a) (tree_of b)) }
{
    let test = tested(alloc, test_of(relation), w, a, b)?;
    if is_opposite(relation) {
        opposite(alloc, test)
    } else {
        Ok(test)
    }
}

fn low_bits(alloc: Global, w: Width, a: &Term) -> Result<Term, Memory>
    ensures { IfOk result (λ r. tree_of r ≡ low_bits_spec w (tree_of a.now)) }
{
    if is_same_width(a.width(), w) {
        a.copy(alloc)
    } else {
        cut_to(alloc, w, a)
    }
}

fn is_same(a: &Term, b: &Term) -> bool
    ensures { result ≡ is_eq (tree_cmp (tree_of a.now) (tree_of b.now)) }
{
    matches!(compare(a, b), Ordering::Equal)
}

/// Makes terms in normal form of terms in normal form. What is made depends on the arguments alone.
#[derive(Drop)]
pub struct TermMaker {
    alloc: Global,
}

impl TermMaker {
    /// A maker.
    pub fn new(alloc: Global) -> TermMaker {
        TermMaker { alloc }
    }

    /// An operator over parts in normal form, under the stores so far.
    #[tactic(auto, using(crate::proofs::Means::built_means))]
    pub fn built(
        &mut self,
        stores: &SymStores,
        head: Head,
        w: Width,
        number: u64,
        name: Name,
        parts: Vec<Term>,
    ) -> Result<Term, Memory>
        ensures built { IfOk result (λ r.
            tree_of r ≡ built_spec (map store_of stores.now) head w number name
            (map tree_of parts.items)) }
        ensures meaning { (v : Valuation) → Stored v (map store_of stores.now) →
            IfOk result (λ r. mean v (tree_of r) ≡ mean v
            (Node head w number name (trees_of (map tree_of parts.items)))) }
        ensures width { IfOk result (λ r. width_of (tree_of r) ≡ own_width head w) }
    {
        build(self.alloc, stores, head, w, number, name, parts)
    }

    /// A sum of a constant and terms in normal form with coefficients.
    #[tactic(auto, using(crate::proofs::Means::summed_means))]
    pub fn summed(&mut self, w: Width, constant: u64, terms: &[Atom]) -> Result<Term, Memory>
        ensures summed { IfOk result (λ r.
            tree_of r ≡ summed_spec w constant (map atom_of terms.now)) }
        ensures meaning { (v : Valuation) →
            IfOk result (λ r. mean v (tree_of r) ≡ low w
            (constant + weight v (map atom_of terms.now))) }
        ensures width { IfOk result (λ r. width_of (tree_of r) ≡ w) }
    {
        summed(self.alloc, w, constant, terms)
    }

    /// A comparison of two terms in normal form: 1 where the relation holds, and else 0.
    #[tactic(auto, using(crate::proofs::Means::compared_means))]
    pub fn compared(
        &mut self,
        relation: Relation,
        w: Width,
        a: Term,
        b: Term,
    ) -> Result<Term, Memory>
        ensures compared { IfOk result (λ r.
            tree_of r ≡ compared_spec relation w (tree_of a) (tree_of b)) }
        ensures meaning { (v : Valuation) →
            IfOk result (λ r. mean v (tree_of r) ≡ truth
            (holds relation w (mean v (tree_of a)) (mean v (tree_of b)))) }
    {
        compared(self.alloc, relation, w, a, b)
    }

    /// The low bits of a term in normal form: the term itself where it is as wide.
    #[tactic(auto, using(crate::proofs::Means::cut_means))]
    pub fn cut(&mut self, w: Width, a: &Term) -> Result<Term, Memory>
        ensures low { IfOk result (λ r. tree_of r ≡ low_bits_spec w (tree_of a.now)) }
        ensures meaning { (v : Valuation) →
            IfOk result (λ r. mean v (tree_of r) ≡ low w (mean v (tree_of a.now))) }
        ensures width { IfOk result (λ r. width_of (tree_of r) ≡ w) }
    {
        low_bits(self.alloc, w, a)
    }

    /// Whether two terms are the same.
    #[tactic(auto, using(crate::proofs::Means::same_means))]
    pub fn same(&mut self, a: &Term, b: &Term) -> Result<bool, Memory>
        ensures { IfOk result (λ r. IsTrue r ↔ (tree_of a.now ≡ tree_of b.now)) }
    {
        Ok(is_same(a, b))
    }
}
