//! Extensions, which compose and go into operators on bits.
ghost use Rattle.std.specs.Prelude.{◌≡◌, List, map, IfOk};
ghost use Rattle.bits64.specs.declared.Width.{Width};
ghost use Rattle.term_tree.specs.declared.head.Joint.{Joint};
ghost use Rattle.term_tree.specs.declared.head.Head.{Head};
ghost use Rattle.term_tree.specs.Tree.{Tree, trees_of, atoms_of};
ghost use Rattle.term_tree.specs.Form.{all_of_width};
ghost use Rattle.term_tree.specs.View.{tree_of, atom_of};
ghost use Rattle.term_mean.specs.Extensions as spec;
ghost use Rattle.term_cuts.specs.machine.Parts.{bits_joint_in, part_extended};

use crate::cuts::{Makes, one_copy};
use bits64::{Width, sext, zext};
use plain_data::Memory;
use std::alloc::Global;
use term_sums::constant_term;
use term_tree::{Atom, Extension, Head, Joint, Term, are_of_width, is_narrower};

/// The operator of an extension.
pub fn extension_head(e: Extension) -> Head
    ensures { result ≡ spec.extension_head e }
{
    match e {
        Extension::Zero => Head::Zext,
        Extension::Sign => Head::Sext,
    }
}

/// The low bits of a number, extended to 64.
pub fn extended_by(e: Extension, w: Width, n: u64) -> u64
    ensures { result ≡ spec.extended_by e w n }
{
    match e {
        Extension::Zero => zext(n, w),
        Extension::Sign => sext(n, w),
    }
}

/// An extension as it stands.
fn extension(alloc: Global, e: Extension, m: Width, t: &Term) -> Result<Term, Memory>
    ensures { IfOk result (λ r. tree_of r ≡ spec.extension e m (tree_of t.now)) }
{
    one_copy(alloc, extension_head(e), m, t)
}

/// An extension of an extension by the sign from `p`.
fn of_sign(
    alloc: Global,
    e: Extension,
    m: Width,
    v: Width,
    t: &Term,
    p: &Term,
) -> Result<Term, Memory>
    ensures { IfOk result (λ r. tree_of r ≡ spec.of_sign e m v (tree_of t.now) (tree_of p.now)) }
{
    match e {
        Extension::Sign => {
            if is_narrower(p.width(), v) {
                extension(alloc, Extension::Sign, m, p)
            } else {
                extension(alloc, Extension::Sign, m, t)
            }
        }
        Extension::Zero => extension(alloc, Extension::Zero, m, t),
    }
}

/// An extension of an extension by zeros from `p`.
fn of_zeros(
    alloc: Global,
    e: Extension,
    m: Width,
    v: Width,
    t: &Term,
    p: &Term,
) -> Result<Term, Memory>
    ensures { IfOk result (λ r. tree_of r ≡ spec.of_zeros e m v (tree_of t.now) (tree_of p.now)) }
{
    if is_narrower(p.width(), v) {
        extension(alloc, Extension::Zero, m, p)
    } else {
        extension(alloc, e, m, t)
    }
}

/// The operator on bits that a head is.
fn bits_joint_of(head: Head) -> Option<Joint>
    ensures { result ≡ bits_joint_in head }
{
    match head {
        Head::And => Some(Joint::And),
        Head::Ior => Some(Joint::Ior),
        Head::Xor => Some(Joint::Xor),
        _ => None,
    }
}

/// An extension of `t`, which is another operator over one part `p`.
fn extended_part(
    alloc: Global,
    e: Extension,
    head: Head,
    m: Width,
    v: Width,
    t: &Term,
    p: &Term,
) -> Result<Term, Memory>
    ensures { IfOk result (λ r. tree_of r ≡ part_extended e head m v (tree_of t.now)
        (tree_of p.now)) }
{
    match head {
        Head::Zext => of_zeros(alloc, e, m, v, t, p),
        Head::Sext => of_sign(alloc, e, m, v, t, p),
        _ => extension(alloc, e, m, t),
    }
}

/// A narrower term, extended to `m` bits.
#[cycle(extended)]
pub fn extended<M: Makes>(
    alloc: Global,
    makes: &M,
    e: Extension,
    m: Width,
    t: &Term,
) -> Result<Term, Memory>
    ensures { IfOk result (λ r. tree_of r ≡ spec.extended (M.made makes.now) e m (tree_of t.now)) }
{
    match t {
        Term::Sum {
            width,
            constant,
            atoms,
        } => match atoms.as_slice() {
            [] => Ok(constant_term(alloc, m, extended_by(e, *width, *constant))),
            [_x, ..] => extension(alloc, e, m, t),
        },
        Term::Node {
            head,
            width,
            number: _,
            name: _,
            parts,
        } => match bits_joint_of(*head) {
            Some(joint) => {
                let parts = parts.as_slice();
                let extensions = extended_all(alloc, makes, e, m, parts)?;
                let over = JointOver {
                    joint,
                    width: *width,
                    parts,
                };
                extended_joint(alloc, makes, e, m, t, &over, extensions)
            }
            None => match parts.as_slice() {
                [p] => extended_part(alloc, e, *head, m, *width, t, p),
                [] => extension(alloc, e, m, t),
                [_p, _q, ..] => extension(alloc, e, m, t),
            },
        },
    }
}

/// An operator on bits, of a width, over parts.
#[derive(Clone, Copy)]
struct JointOver<'a> {
    joint: Joint,
    width: Width,
    parts: &'a [Term],
}

/// An operator on bits over parts, extended: from the extensions of the parts.
fn extended_joint<M: Makes>(
    alloc: Global,
    makes: &M,
    e: Extension,
    m: Width,
    t: &Term,
    over: &JointOver<'_>,
    extensions: Vec<Term>,
) -> Result<Term, Memory>
    ensures { IfOk result (λ r. tree_of r ≡ spec.extended_joint (M.made makes.now) e m
        over.now.joint over.now.width (tree_of t.now) (trees_of (map tree_of over.now.parts.now))
        (map tree_of extensions.items)) }
{
    if !extensions.is_empty() && are_of_width(over.width, over.parts) {
        makes.make(alloc, over.joint, extensions)
    } else {
        extension(alloc, e, m, t)
    }
}

#[cycle(extended)]
fn extended_all<M: Makes>(
    alloc: Global,
    makes: &M,
    e: Extension,
    m: Width,
    parts: &[Term],
) -> Result<Vec<Term>, Memory>
    ensures { IfOk result (λ r. map tree_of r.items ≡ spec.extended_all (M.made makes.now) e m
        (trees_of (map tree_of parts.now))) }
{
    let mut extensions = Vec::new(alloc);
    for part in parts {
        extensions.push(extended(alloc, makes, e, m, part)?)?;
    }
    Ok(extensions)
}
