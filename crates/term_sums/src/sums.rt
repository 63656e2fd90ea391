//! Sums: constants are added, equal atoms are joined, and atoms stand in order.
ghost use Rattle.std.specs.Prelude.{◌≡◌, [], ◌∷◌, ◌-◌, ◌^◌, map, IfOk};
ghost use Rattle.bits64.specs.Words.{bits_of};
ghost use Rattle.term_tree.specs.View.{tree_of, atom_of};
ghost use Rattle.term_mean.specs.Sums as spec;

use crate::atoms::{in_order, push_atoms_of};
use bits64::{Width, add, mul, trunc};
use plain_data::{Items, Memory};
use std::alloc::Global;
use term_tree::{Atom, Term, is_same_width};

/// A constant, cut to its width. It takes no memory.
pub fn constant_term(alloc: Global, width: Width, constant: u64) -> Term
    ensures { tree_of result ≡ spec.constant width constant }
{
    Term::Sum {
        width,
        constant: trunc(constant, width),
        atoms: Items::new(alloc),
    }
}

/// A constant and atoms as a term: the atom itself, where it is alone.
pub fn sum(w: Width, constant: u64, mut atoms: Vec<Atom>) -> Term
    ensures { tree_of result ≡ spec.sum w constant (map atom_of atoms.items) }
{
    if constant == 0
        && atoms.len() == 1
        && atoms[0].coefficient == 1
        && is_same_width(atoms[0].term.width(), w)
    {
        let Atom {
            coefficient: _,
            term,
        } = atoms.remove(0);
        return term;
    }
    Term::Sum {
        width: w,
        constant,
        atoms: Items::from_vec(atoms),
    }
}

fn constant_part(w: Width, t: &Term) -> u64
    ensures { result ≡ spec.constant_at w (tree_of t.now) }
{
    match t {
        Term::Sum {
            width,
            constant,
            ..
        } if is_same_width(*width, w) => *constant,
        _ => 0,
    }
}

fn into_atoms(alloc: Global, w: Width, t: Term) -> Result<Vec<Atom>, Memory>
    ensures { IfOk result (λ r. map atom_of r.items ≡ spec.atoms_at w (tree_of t)) }
{
    match t {
        Term::Sum {
            width,
            constant,
            atoms,
        } => {
            if is_same_width(width, w) {
                Ok(atoms.into_vec())
            } else {
                one_atom(
                    alloc,
                    Term::Sum {
                        width,
                        constant,
                        atoms,
                    },
                )
            }
        }
        node => one_atom(alloc, node),
    }
}

fn one_atom(alloc: Global, term: Term) -> Result<Vec<Atom>, Memory>
    ensures { IfOk result (λ r. map atom_of r.items ≡ (1, tree_of term) ∷ []) }
{
    let mut atoms = Vec::new(alloc);
    atoms.push(Atom {
        coefficient: 1,
        term,
    })?;
    Ok(atoms)
}

/// `a + f * b`.
pub fn plus_times(alloc: Global, w: Width, a: Term, f: u64, b: &Term) -> Result<Term, Memory>
    ensures { IfOk result (λ r. tree_of r ≡ spec.plus_times w (tree_of a) f (tree_of b.now)) }
{
    let constant = add(constant_part(w, &a), mul(f, constant_part(w, b), w), w);
    let mut atoms = into_atoms(alloc, w, a)?;
    push_atoms_of(alloc, w, f, &mut atoms, b)?;
    let atoms = in_order(alloc, w, atoms)?;
    Ok(sum(w, constant, atoms))
}

/// The sum of a constant and terms with coefficients.
pub fn summed(alloc: Global, w: Width, constant: u64, terms: &[Atom]) -> Result<Term, Memory>
    ensures { IfOk result (λ r. tree_of r ≡ spec.summed w constant (map atom_of terms.now)) }
{
    let atoms = all_atoms(alloc, w, terms)?;
    let atoms = in_order(alloc, w, atoms)?;
    Ok(sum(w, constants(w, trunc(constant, w), terms), atoms))
}

/// A constant, and that of one more term as often as its coefficient says.
#[tactic(auto, using(term_tree::proofs::ViewLaws::view_laws))]
fn plus_constant(w: Width, constant: u64, x: &Atom) -> u64
    ensures { result ≡ spec.constants_at w constant (atom_of x.now ∷ []) }
{
    add(
        constant,
        mul(x.coefficient, constant_part(w, &x.term), w),
        w,
    )
}

/// A constant, and that of each term as often as its coefficient says.
fn constants(w: Width, constant: u64, terms: &[Atom]) -> u64
    ensures { result ≡ spec.constants_at w constant (map atom_of terms.now) }
{
    let mut so_far = constant;
    for x in terms {
        so_far = plus_constant(w, so_far, x);
    }
    so_far
}

/// The atoms of all terms, as they come.
fn all_atoms(alloc: Global, w: Width, terms: &[Atom]) -> Result<Vec<Atom>, Memory>
    ensures { IfOk result (λ r. map atom_of r.items ≡ spec.all_atoms w (map atom_of terms.now)) }
{
    let mut atoms = Vec::new(alloc);
    for x in terms {
        push_atoms_of(alloc, w, x.coefficient, &mut atoms, &x.term)?;
    }
    Ok(atoms)
}

/// `f * a`.
pub fn times(alloc: Global, w: Width, f: u64, a: &Term) -> Result<Term, Memory>
    ensures { IfOk result (λ r. tree_of r ≡ spec.times w f (tree_of a.now)) }
{
    plus_times(alloc, w, constant_term(alloc, w, 0), f, a)
}

/// The number of a width that is -1.
pub fn minus_one(w: Width) -> u64
    ensures { result ≡ 2 ^ bits_of w - 1 }
{
    match w {
        Width::W8 => 0xff,
        Width::W16 => 0xffff,
        Width::W32 => 0xffff_ffff,
        Width::W64 => u64::MAX,
    }
}

/// `a - b`.
pub fn minus(alloc: Global, w: Width, a: Term, b: &Term) -> Result<Term, Memory>
    ensures { IfOk result (λ r. tree_of r ≡ spec.minus w (tree_of a) (tree_of b.now)) }
{
    plus_times(alloc, w, a, minus_one(w), b)
}

/// `-a`.
pub fn negated(alloc: Global, w: Width, a: &Term) -> Result<Term, Memory>
    ensures { IfOk result (λ r. tree_of r ≡ spec.negated w (tree_of a.now)) }
{
    times(alloc, w, minus_one(w), a)
}
