//! Which terms are well-formed.
ghost use Rattle.std.specs.Prelude.{◌≡◌, [], ◌∷◌, map};
ghost use Rattle.term_tree.specs.Tree.{trees_of, atoms_of, width_of};
ghost use Rattle.term_tree.specs.Form as spec;
ghost use Rattle.term_tree.specs.View.{tree_of, atom_of};

use crate::head::Head;
use crate::term::{Atom, Term};
use bits64::{Taking, Width};

impl Term {
    /// The width of the term's number.
    pub fn width(&self) -> Width
        ensures { result ≡ width_of (tree_of self.now) }
    {
        match self {
            Term::Sum { width, .. } => *width,
            Term::Node { head, width, .. } => match head {
                Head::Lt | Head::Ltu | Head::Eq => Width::W8,
                _ => *width,
            },
        }
    }
}

/// Whether two widths are one.
pub fn is_same_width(v: Width, w: Width) -> bool
    ensures { result ≡ spec.same_width v w }
{
    v.bits() == w.bits()
}

/// Whether a width is less than another.
pub fn is_narrower(v: Width, w: Width) -> bool
    ensures { result ≡ spec.narrower v w }
{
    v.bits() < w.bits()
}

fn does_fit(w: Width, n: u64) -> bool
    ensures { result ≡ spec.fits w n }
{
    match w {
        Width::W8 => n < 0x100,
        Width::W16 => n < 0x1_0000,
        Width::W32 => n < 0x1_0000_0000,
        Width::W64 => true,
    }
}

/// Whether each part has the width.
pub fn are_of_width(w: Width, parts: &[Term]) -> bool
    ensures { result ≡ spec.all_of_width w (trees_of (map tree_of parts.now)) }
{
    for part in parts {
        if !is_same_width(part.width(), w) {
            return false;
        }
    }
    true
}

fn are_several(w: Width, parts: &[Term]) -> bool
    ensures { result ≡ spec.several w (trees_of (map tree_of parts.now)) }
{
    match parts {
        [] => false,
        [_a] => false,
        [_a, _b, ..] => are_of_width(w, parts),
    }
}

fn are_two(w: Width, parts: &[Term]) -> bool
    ensures { result ≡ spec.two w (trees_of (map tree_of parts.now)) }
{
    match parts {
        [] => false,
        [_a] => false,
        [_a, _b] => are_of_width(w, parts),
        [_a, _b, _c, ..] => false,
    }
}

fn is_one(w: Width, parts: &[Term]) -> bool
    ensures { result ≡ spec.one w (trees_of (map tree_of parts.now)) }
{
    match parts {
        [] => false,
        [a] => is_same_width(a.width(), w),
        [_a, _b, ..] => false,
    }
}

fn are_counted(w: Width, parts: &[Term]) -> bool
    ensures { result ≡ spec.counted w (trees_of (map tree_of parts.now)) }
{
    match parts {
        [] => false,
        [_a] => false,
        [a, _b] => is_same_width(a.width(), w),
        [_a, _b, _c, ..] => false,
    }
}

fn is_one_wider(w: Width, parts: &[Term]) -> bool
    ensures { result ≡ spec.one_wider w (trees_of (map tree_of parts.now)) }
{
    match parts {
        [] => false,
        [a] => is_narrower(w, a.width()),
        [_a, _b, ..] => false,
    }
}

fn is_one_narrower(w: Width, parts: &[Term]) -> bool
    ensures { result ≡ spec.one_narrower w (trees_of (map tree_of parts.now)) }
{
    match parts {
        [] => false,
        [a] => is_narrower(a.width(), w),
        [_a, _b, ..] => false,
    }
}

fn is_none_of_64(w: Width, parts: &[Term]) -> bool
    ensures { result ≡ spec.none_of_64 w (trees_of (map tree_of parts.now)) }
{
    match parts {
        [] => is_same_width(w, Width::W64),
        [_a, ..] => false,
    }
}

/// Whether an operator of which nothing else is known takes these parts in a width.
fn does_opaque_take(taking: Taking, w: Width, parts: &[Term]) -> bool
    ensures { result ≡ spec.opaque_takes taking w (trees_of (map tree_of parts.now)) }
{
    match taking {
        Taking::Alone => is_one(w, parts),
        Taking::Pair => are_two(w, parts),
        Taking::Counted => are_counted(w, parts),
    }
}

/// Whether a head takes these parts in a width.
fn does_take(head: Head, w: Width, parts: &[Term]) -> bool
    ensures { result ≡ spec.takes head w (trees_of (map tree_of parts.now)) }
{
    match head {
        Head::Reg | Head::Sym => is_none_of_64(w, parts),
        Head::Sum => false,
        Head::Mul | Head::And | Head::Ior | Head::Xor => are_several(w, parts),
        Head::Opaque(operator) => does_opaque_take(operator.taking(), w, parts),
        Head::Shl | Head::Shr | Head::Sar => are_counted(w, parts),
        Head::Trunc => is_one_wider(w, parts),
        Head::Zext | Head::Sext => is_one_narrower(w, parts),
        Head::Eq => is_one(w, parts),
        Head::Load => is_one(Width::W64, parts),
        _ => are_two(w, parts),
    }
}

fn may_have_number(head: Head, number: u64) -> bool
    ensures { result ≡ spec.has_number head number }
{
    match head {
        Head::Reg | Head::Load => true,
        _ => number == 0,
    }
}

fn is_no_name(name: &[u8]) -> bool
    ensures { result ≡ spec.no_name name.now }
{
    match name {
        [] => true,
        [_c, ..] => false,
    }
}

fn may_have_name(head: Head, name: &[u8]) -> bool
    ensures { result ≡ spec.has_name head name.now }
{
    match head {
        Head::Sym => true,
        _ => is_no_name(name),
    }
}

/// Whether the numbers fit their widths, and each head has the parts that it takes.
#[cycle(form)]
pub fn is_well_formed(term: &Term) -> bool
    ensures { result ≡ spec.well_formed (tree_of term.now) }
{
    match term {
        Term::Sum {
            width,
            constant,
            atoms,
        } => does_fit(*width, *constant) && are_well_formed_atoms(*width, atoms.as_slice()),
        Term::Node {
            head,
            width,
            number,
            name,
            parts,
        } => {
            may_have_number(*head, *number)
                && may_have_name(*head, name.bytes())
                && does_take(*head, *width, parts.as_slice())
                && are_well_formed(parts.as_slice())
        }
    }
}

#[cycle(form)]
#[tactic(auto, using(crate::proofs::ViewLaws::view_laws))]
fn is_well_formed_atom(w: Width, atom: &Atom) -> bool
    ensures { result ≡ spec.well_formed_atoms w (atoms_of (atom_of atom.now ∷ [])) }
{
    does_fit(w, atom.coefficient)
        && is_same_width(atom.term.width(), w)
        && is_well_formed(&atom.term)
}

#[cycle(form)]
#[tactic(auto, using(crate::proofs::ViewLaws::view_laws))]
fn are_well_formed_atoms(w: Width, atoms: &[Atom]) -> bool
    ensures { result ≡ spec.well_formed_atoms w (atoms_of (map atom_of atoms.now)) }
{
    for atom in atoms {
        if !is_well_formed_atom(w, atom) {
            return false;
        }
    }
    true
}

#[cycle(form)]
fn are_well_formed(parts: &[Term]) -> bool
    ensures { result ≡ spec.well_formed_parts (trees_of (map tree_of parts.now)) }
{
    for part in parts {
        if !is_well_formed(part) {
            return false;
        }
    }
    true
}
