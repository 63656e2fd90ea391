//! The order of terms.

ghost use Rattle.std.specs.Prelude.{◌≡◌, map};
ghost use Rattle.std.specs.Ordering.{ordering_then};
ghost use Rattle.term_tree.specs.Tree.{Sum, Node, trees_of, atoms_of};
ghost use Rattle.term_tree.specs.Order.{head_index, numbers_cmp, tree_cmp, atoms_cmp, trees_cmp};
ghost use Rattle.term_tree.specs.View.{tree_of, atom_of};

use crate::head::Head;
use crate::term::{Atom, Term};
use bits64::Width;
use std::cmp::Ordering;

/// The place of a head among all.
pub fn place(head: Head) -> u8
    ensures { result ≡ head_index head }
{
    match head {
        Head::Reg => 0,
        Head::Sym => 1,
        Head::Sum => 2,
        Head::Mul => 3,
        Head::Opaque(operator) => 4 + operator.index(),
        Head::And => 64,
        Head::Ior => 65,
        Head::Xor => 66,
        Head::Shl => 67,
        Head::Shr => 68,
        Head::Sar => 69,
        Head::Trunc => 70,
        Head::Zext => 71,
        Head::Sext => 72,
        Head::Lt => 73,
        Head::Ltu => 74,
        Head::Eq => 75,
        Head::Load => 76,
    }
}

fn compare_names(a: &[u8], b: &[u8]) -> Ordering
    ensures { result ≡ numbers_cmp a.now b.now }
{
    let mut left = a;
    let mut right = b;
    while let [x, xs @ ..] = left {
        let [y, ys @ ..] = right else {
            return Ordering::Greater;
        };
        match x.cmp(y) {
            Ordering::Less => return Ordering::Less,
            Ordering::Equal => {}
            Ordering::Greater => return Ordering::Greater,
        }
        left = xs;
        right = ys;
    }
    match right {
        [] => Ordering::Equal,
        [_y, ..] => Ordering::Less,
    }
}

/// The order of terms. It is known at the first difference.
#[cycle(order)]
pub fn compare(a: &Term, b: &Term) -> Ordering
    ensures { result ≡ tree_cmp (tree_of a.now) (tree_of b.now) }
{
    match a {
        Term::Sum {
            width,
            constant,
            atoms,
        } => compare_sum(*width, *constant, atoms.as_slice(), b),
        Term::Node {
            head,
            width,
            number,
            name,
            parts,
        } => compare_node(*head, *width, *number, name.bytes(), parts.as_slice(), b),
    }
}

/// The order of a sum and a term.
#[cycle(order)]
fn compare_sum(w: Width, c: u64, atoms: &[Atom], b: &Term) -> Ordering
    ensures { result ≡ tree_cmp (Sum w c (atoms_of (map atom_of atoms.now))) (tree_of b.now) }
{
    match b {
        Term::Sum {
            width,
            constant,
            atoms: others,
        } => match w.bits().cmp(&width.bits()).then(c.cmp(constant)) {
            Ordering::Less => Ordering::Less,
            Ordering::Equal => compare_atoms(atoms, others.as_slice()),
            Ordering::Greater => Ordering::Greater,
        },
        Term::Node { head, .. } => match head {
            Head::Reg | Head::Sym => Ordering::Greater,
            _ => Ordering::Less,
        },
    }
}

/// The order of a node and a term.
#[cycle(order)]
fn compare_node(h: Head, w: Width, n: u64, s: &[u8], parts: &[Term], b: &Term) -> Ordering
    ensures { result ≡
        tree_cmp (Node h w n s.now (trees_of (map tree_of parts.now))) (tree_of b.now) }
{
    match b {
        Term::Sum { .. } => match h {
            Head::Reg | Head::Sym => Ordering::Less,
            _ => Ordering::Greater,
        },
        Term::Node {
            head,
            width,
            number,
            name,
            parts: others,
        } => {
            let first = place(h)
                .cmp(&place(*head))
                .then(w.bits().cmp(&width.bits()))
                .then(n.cmp(number))
                .then(compare_names(s, name.bytes()));
            match first {
                Ordering::Less => Ordering::Less,
                Ordering::Equal => compare_parts(parts, others.as_slice()),
                Ordering::Greater => Ordering::Greater,
            }
        }
    }
}

#[cycle(order)]
#[tactic(auto, using(crate::proofs::ViewLaws::view_laws))]
fn compare_atoms(a: &[Atom], b: &[Atom]) -> Ordering
    ensures { result ≡ atoms_cmp (atoms_of (map atom_of a.now)) (atoms_of (map atom_of b.now)) }
{
    let mut left = a;
    let mut right = b;
    while let [x, xs @ ..] = left {
        let [y, ys @ ..] = right else {
            return Ordering::Greater;
        };
        match compare(&x.term, &y.term).then(x.coefficient.cmp(&y.coefficient)) {
            Ordering::Less => return Ordering::Less,
            Ordering::Equal => {}
            Ordering::Greater => return Ordering::Greater,
        }
        left = xs;
        right = ys;
    }
    match right {
        [] => Ordering::Equal,
        [_y, ..] => Ordering::Less,
    }
}

#[cycle(order)]
fn compare_parts(a: &[Term], b: &[Term]) -> Ordering
    ensures { result ≡ trees_cmp (trees_of (map tree_of a.now)) (trees_of (map tree_of b.now)) }
{
    let mut left = a;
    let mut right = b;
    while let [x, xs @ ..] = left {
        let [y, ys @ ..] = right else {
            return Ordering::Greater;
        };
        match compare(x, y) {
            Ordering::Less => return Ordering::Less,
            Ordering::Equal => {}
            Ordering::Greater => return Ordering::Greater,
        }
        left = xs;
        right = ys;
    }
    match right {
        [] => Ordering::Equal,
        [_y, ..] => Ordering::Less,
    }
}
