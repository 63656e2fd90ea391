//! Shifts.
ghost use Rattle.std.specs.Prelude.{◌≡◌, ◌%◌, ◌^◌, ◌<◌, map, IfOk, Some};
ghost use Rattle.bits64.specs.Words.{bits_of};
ghost use Rattle.term_tree.specs.Tree.{atoms_of};
ghost use Rattle.term_tree.specs.View.{tree_of, atom_of};
ghost use Rattle.term_cuts.specs.term_mean.Shifts as spec;

use bits64::Width;
use plain_data::Memory;
use std::alloc::Global;
use term_cuts::{AtWidth, cut_to, extended, low_8};
use term_sums::{constant_of, constant_term, sum, times};
use term_tree::{Atom, Extension, Head, Term, is_same_width};
use term_zero::{on_constants, two_parts};

/// The width that is left after `k` bits, where it is 8, 16 or 32.
fn left_of(w: Width, k: u64) -> Option<Width>
    ensures { result ≡ spec.left_of w k }
{
    match w {
        Width::W8 => None,
        Width::W16 => { if k == 8 { Some(Width::W8) } else { None } }
        Width::W32 => {
            if k == 24 {
                Some(Width::W8)
            } else if k == 16 {
                Some(Width::W16)
            } else {
                None
            }
        }
        Width::W64 => {
            if k == 56 {
                Some(Width::W8)
            } else if k == 48 {
                Some(Width::W16)
            } else if k == 32 {
                Some(Width::W32)
            } else {
                None
            }
        }
    }
}

/// Whether a number is a multiple.
fn does_divide(d: u64, n: u64) -> bool
    requires { 0 < d }
    ensures { result ≡ spec.divides d n }
{
    n % d == 0
}

/// Whether each coefficient is a multiple.
fn does_divide_all(d: u64, atoms: &[Atom]) -> bool
    requires { 0 < d }
    ensures { result ≡ spec.divides_all d (atoms_of (map atom_of atoms.now)) }
{
    for atom in atoms {
        if !does_divide(d, atom.coefficient) {
            return false;
        }
    }
    true
}

/// The atoms, each coefficient divided.
fn quotients(alloc: Global, d: u64, atoms: &[Atom]) -> Result<Vec<Atom>, Memory>
    requires { 0 < d }
    ensures { IfOk result (λ r. map atom_of r.items ≡ spec.quotients d
        (atoms_of (map atom_of atoms.now))) }
{
    let mut quotients = Vec::new(alloc);
    for atom in atoms {
        quotients.push(Atom {
            coefficient: atom.coefficient / d,
            term: atom.term.copy(alloc)?,
        })?;
    }
    Ok(quotients)
}

/// The sum divided by `d`, cut to `m` bits and extended again.
fn exact(
    alloc: Global,
    e: Extension,
    w: Width,
    m: Width,
    d: u64,
    constant: u64,
    atoms: &[Atom],
) -> Result<Term, Memory>
    requires { 0 < d }
    ensures { IfOk result (λ r. tree_of r ≡ spec.exact e w m d constant
        (atoms_of (map atom_of atoms.now))) }
{
    let quotient = sum(w, constant / d, quotients(alloc, d, atoms)?);
    let low = cut_to(alloc, m, &quotient)?;
    extended(alloc, &AtWidth { width: w }, e, w, &low)
}

/// A power of 2 below 2 ^ 64.
fn power(k: u64) -> u64
    requires { k < 64 }
    ensures value { result ≡ 2 ^ k }
    ensures positive { 0 < result }
{
    1 << k
}

/// A right shift: its operator, how what is left of its operand is extended, its width, and the
/// constant by which it goes.
#[derive(Clone, Copy)]
struct RightShift {
    head: Head,
    extension: Extension,
    width: Width,
    by: u64,
}

/// A right shift where `m` bits are left: of a sum of multiples it is exact.
fn right_to(alloc: Global, m: Width, shift: RightShift, a: Term, b: Term) -> Result<Term, Memory>
    requires { shift.by < 64 }
    ensures { IfOk result (λ r. tree_of r ≡ spec.right_exact (Some m) shift.head shift.extension
        shift.width shift.by (tree_of a) (tree_of b)) }
{
    let RightShift {
        head,
        extension,
        width: w,
        by,
    } = shift;
    let d = power(by);
    match a {
        Term::Sum {
            width,
            constant,
            atoms,
        } => {
            if is_same_width(width, w)
                && (does_divide(d, constant) && does_divide_all(d, atoms.as_slice()))
            {
                return exact(alloc, extension, w, m, d, constant, atoms.as_slice());
            }
            let sum = Term::Sum {
                width,
                constant,
                atoms,
            };
            two_parts(alloc, head, w, sum, b)
        }
        node => two_parts(alloc, head, w, node, b),
    }
}

/// A right shift that leaves `left` bits, where that is a width.
fn right_exact(
    alloc: Global,
    left: Option<Width>,
    shift: RightShift,
    a: Term,
    b: Term,
) -> Result<Term, Memory>
    requires { shift.by < 64 }
    ensures { IfOk result (λ r. tree_of r ≡ spec.right_exact left shift.head shift.extension
        shift.width shift.by (tree_of a) (tree_of b)) }
{
    match left {
        None => two_parts(alloc, shift.head, shift.width, a, b),
        Some(m) => right_to(alloc, m, shift, a, b),
    }
}

/// A shift by a constant below the width that is not 0.
fn by_nonzero(alloc: Global, head: Head, w: Width, a: Term, k: u64) -> Result<Term, Memory>
    requires { k < 64 }
    ensures { IfOk result (λ r. tree_of r ≡ spec.by_nonzero head w (tree_of a) k) }
{
    let count = constant_term(alloc, Width::W8, k);
    match head {
        Head::Shl => times(alloc, w, power(k), &a),
        Head::Shr => {
            let shift = RightShift {
                head: Head::Shr,
                extension: Extension::Zero,
                width: w,
                by: k,
            };
            right_exact(alloc, left_of(w, k), shift, a, count)
        }
        Head::Sar => {
            let shift = RightShift {
                head: Head::Sar,
                extension: Extension::Sign,
                width: w,
                by: k,
            };
            right_exact(alloc, left_of(w, k), shift, a, count)
        }
        _ => two_parts(alloc, head, w, a, count),
    }
}

/// A shift by a constant below the width: by 0 it is the operand.
fn by_constant(alloc: Global, head: Head, w: Width, a: Term, k: u64) -> Result<Term, Memory>
    requires { k < 64 }
    ensures { IfOk result (λ r. tree_of r ≡ spec.by_constant head w (tree_of a) k) }
{
    if k != 0 {
        return by_nonzero(alloc, head, w, a, k);
    }
    if is_same_width(a.width(), w) {
        Ok(a)
    } else {
        two_parts(alloc, head, w, a, constant_term(alloc, Width::W8, 0))
    }
}

/// A count modulo the width.
fn reduced(w: Width, k: u64) -> u64
    ensures value { result ≡ k % bits_of w }
    ensures small { result < 64 }
{
    match w {
        Width::W8 => k % 8,
        Width::W16 => k % 16,
        Width::W32 => k % 32,
        Width::W64 => k % 64,
    }
}

/// A shift by a constant modulo the width, or by another count as it stands.
fn by_count(
    alloc: Global,
    count: Option<u64>,
    head: Head,
    w: Width,
    a: Term,
    b: Term,
) -> Result<Term, Memory>
    ensures { IfOk result (λ r. tree_of r ≡ spec.by_count count head w (tree_of a) (tree_of b)) }
{
    match count {
        Some(k) => by_constant(alloc, head, w, a, reduced(w, k)),
        None => two_parts(alloc, head, w, a, b),
    }
}

/// A shift by a count of 8 bits.
fn shifted_by(alloc: Global, head: Head, w: Width, a: Term, b: Term) -> Result<Term, Memory>
    ensures { IfOk result (λ r. tree_of r ≡ spec.shifted_by head w (tree_of a) (tree_of b)) }
{
    let number = constant_of(&a);
    let count = constant_of(&b);
    let other = by_count(alloc, count, head, w, a, b)?;
    Ok(on_constants(alloc, number, count, head, w, other))
}

/// A shift: its count is cut to 8 bits first, and the rules go by what that is.
pub fn shifted(alloc: Global, head: Head, w: Width, a: Term, b: &Term) -> Result<Term, Memory>
    ensures { IfOk result (λ r. tree_of r ≡ spec.shifted head w (tree_of a) (tree_of b.now)) }
{
    let count = low_8(alloc, b)?;
    shifted_by(alloc, head, w, a, count)
}
