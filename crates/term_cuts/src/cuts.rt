//! Truncation, which goes into the parts of sums, products and operators on bits.
ghost use Rattle.std.specs.Prelude.{◌≡◌, List, map, IfOk};
ghost use Rattle.term_tree.specs.declared.head.Joint.{Joint};
ghost use Rattle.term_tree.specs.Tree.{Tree, trees_of, atoms_of};
ghost use Rattle.term_tree.specs.View.{tree_of, atom_of};
ghost use Rattle.term_mean.specs.Sums.{summed as summed_spec};
ghost use Rattle.term_mean.specs.Cuts as spec;
ghost use Rattle.term_cuts.specs.machine.Parts.{joint_in, part_cut};

use bits64::{Width, trunc};
use plain_data::{Items, Memory};
use rtx_tree::Name;
use std::alloc::Global;
use term_sums::summed;
use term_tree::{Atom, Head, Joint, Term, is_narrower, is_same_width};

/// How products and operators on bits are made at one width.
pub trait Makes {
    ghost made: { Self → Joint → List Tree → Tree };

    fn make(&self, alloc: Global, o: Joint, parts: Vec<Term>) -> Result<Term, Memory>
        ensures { IfOk result (λ r. tree_of r ≡ made self.now o (map tree_of parts.items)) };
}

/// An operator over one part.
pub fn one_part(alloc: Global, head: Head, w: Width, part: Term) -> Result<Term, Memory>
    ensures { IfOk result (λ r. tree_of r ≡ spec.one_part head w (tree_of part)) }
{
    let mut parts = Items::new(alloc);
    parts.push(part)?;
    Ok(Term::Node {
        head,
        width: w,
        number: 0,
        name: Name::empty(alloc),
        parts,
    })
}

/// An operator over one part that is copied.
pub fn one_copy(alloc: Global, head: Head, w: Width, part: &Term) -> Result<Term, Memory>
    ensures { IfOk result (λ r. tree_of r ≡ spec.one_part head w (tree_of part.now)) }
{
    let copy = part.copy(alloc)?;
    one_part(alloc, head, w, copy)
}

/// The operator whose parts are cut, of a head that is one.
fn joint_of(head: Head) -> Option<Joint>
    ensures { result ≡ joint_in head }
{
    match head {
        Head::Mul => Some(Joint::Mul),
        Head::And => Some(Joint::And),
        Head::Ior => Some(Joint::Ior),
        Head::Xor => Some(Joint::Xor),
        _ => None,
    }
}

/// A wider term, cut to `m` bits.
#[cycle(cut)]
pub fn cut<M: Makes>(alloc: Global, makes: &M, m: Width, t: &Term) -> Result<Term, Memory>
    ensures { IfOk result (λ r. tree_of r ≡ spec.cut (M.made makes.now) m (tree_of t.now)) }
{
    if !is_narrower(m, t.width()) {
        return one_copy(alloc, Head::Trunc, m, t);
    }
    match t {
        Term::Sum {
            width: _,
            constant,
            atoms,
        } => cut_atoms(alloc, makes, m, *constant, atoms.as_slice()),
        Term::Node {
            head,
            width: _,
            number: _,
            name: _,
            parts,
        } => match joint_of(*head) {
            Some(joint) => makes.make(alloc, joint, cut_all(alloc, makes, m, parts.as_slice())?),
            None => match parts.as_slice() {
                [p] => cut_part(alloc, makes, *head, m, p, t),
                [] => one_copy(alloc, Head::Trunc, m, t),
                [_p, _q, ..] => one_copy(alloc, Head::Trunc, m, t),
            },
        },
    }
}

/// What `t`, an operator over one part `p`, is cut to.
#[cycle(cut)]
fn cut_part<M: Makes>(
    alloc: Global,
    makes: &M,
    head: Head,
    m: Width,
    p: &Term,
    t: &Term,
) -> Result<Term, Memory>
    ensures { IfOk result (λ r. tree_of r ≡ part_cut head m (tree_of t.now) (tree_of p.now)
        (spec.cut (M.made makes.now) m (tree_of p.now))) }
{
    match head {
        Head::Trunc => cut(alloc, makes, m, p),
        Head::Zext | Head::Sext => cut_extension(alloc, makes, head, m, p),
        _ => one_copy(alloc, Head::Trunc, m, t),
    }
}

/// An extension of `p`, cut.
#[cycle(cut)]
fn cut_extension<M: Makes>(
    alloc: Global,
    makes: &M,
    head: Head,
    m: Width,
    p: &Term,
) -> Result<Term, Memory>
    ensures { IfOk result (λ r. tree_of r ≡ spec.extension_cut head m (tree_of p.now)
        (spec.cut (M.made makes.now) m (tree_of p.now))) }
{
    if is_narrower(m, p.width()) {
        cut(alloc, makes, m, p)
    } else if is_same_width(m, p.width()) {
        p.copy(alloc)
    } else {
        one_copy(alloc, head, m, p)
    }
}

#[cycle(cut)]
fn cut_atoms<M: Makes>(
    alloc: Global,
    makes: &M,
    m: Width,
    constant: u64,
    atoms: &[Atom],
) -> Result<Term, Memory>
    ensures { IfOk result (λ r. tree_of r ≡ summed_spec m constant
        (spec.cut_atoms (M.made makes.now) m (atoms_of (map atom_of atoms.now)))) }
{
    let mut cuts = Vec::new(alloc);
    for atom in atoms {
        cuts.push(Atom {
            coefficient: trunc(atom.coefficient, m),
            term: cut(alloc, makes, m, &atom.term)?,
        })?;
    }
    summed(alloc, m, constant, cuts.as_slice())
}

#[cycle(cut)]
fn cut_all<M: Makes>(
    alloc: Global,
    makes: &M,
    m: Width,
    parts: &[Term],
) -> Result<Vec<Term>, Memory>
    ensures { IfOk result (λ r. map tree_of r.items ≡ spec.cut_all (M.made makes.now) m
        (trees_of (map tree_of parts.now))) }
{
    let mut cuts = Vec::new(alloc);
    for part in parts {
        cuts.push(cut(alloc, makes, m, part)?)?;
    }
    Ok(cuts)
}
