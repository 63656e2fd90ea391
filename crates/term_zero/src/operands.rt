//! Two extensions of one kind from one width; a constant counts as the extension of its low bits,
//! where it is that.
ghost use Rattle.std.specs.Prelude.{◌≡◌, map, IfOk};
ghost use Rattle.std.specs.Option.{option_or};
ghost use Rattle.term_tree.specs.Tree.{trees_of};
ghost use Rattle.term_tree.specs.View.{tree_of};
ghost use Rattle.term_cuts.specs.term_mean.Zero as spec;
ghost use Rattle.term_zero.specs.machine.Views.{extended_of, extended_found, tree_found, operands_found};

use bits64::{Width, trunc};
use plain_data::Memory;
use std::alloc::Global;
use term_cuts::extended_by;
use term_sums::constant_term;
use term_tree::{Extension, Head, Term, is_narrower, is_same_width};

/// What a term extends.
#[derive(Clone, Copy)]
pub struct Extended {
    pub kind: Extension,
    pub width: Width,
}

/// Two terms of the width from which both are extended.
#[derive(Drop)]
pub struct Operands {
    pub kind: Extension,
    pub width: Width,
    pub left: Term,
    pub right: Term,
}

/// An extension to `w` bits of a narrower term.
fn extension_of(e: Extension, w: Width, v: Width, t: &Term) -> Option<Extended>
    ensures { extended_found result ≡ spec.extension_of e w v (tree_of t.now) }
{
    if is_same_width(v, w) && is_narrower(t.width(), w) {
        Some(Extended {
            kind: e,
            width: t.width(),
        })
    } else {
        None
    }
}

fn extension_in(w: Width, t: &Term) -> Option<Extended>
    ensures { extended_found result ≡ spec.extension_in w (tree_of t.now) }
{
    match t {
        Term::Sum { .. } => None,
        Term::Node {
            head,
            width,
            number: _,
            name: _,
            parts,
        } => match head {
            Head::Zext => match parts.as_slice() {
                [p] => extension_of(Extension::Zero, w, *width, p),
                [] => None,
                [_p, _q, ..] => None,
            },
            Head::Sext => match parts.as_slice() {
                [p] => extension_of(Extension::Sign, w, *width, p),
                [] => None,
                [_p, _q, ..] => None,
            },
            _ => None,
        },
    }
}

fn is_same_kind(a: Extension, b: Extension) -> bool
    ensures { result ≡ spec.same_kind a b }
{
    match a {
        Extension::Zero => match b {
            Extension::Zero => true,
            Extension::Sign => false,
        },
        Extension::Sign => match b {
            Extension::Zero => false,
            Extension::Sign => true,
        },
    }
}

/// The operand, where an extension is of the kind from the width.
fn operand_if(
    alloc: Global,
    x: Extended,
    e: Extension,
    w: Width,
    v: Width,
    t: &Term,
) -> Result<Option<Term>, Memory>
    ensures { IfOk result (λ r. tree_found r ≡ spec.operand_if (extended_of x) e w v
        (tree_of t.now)) }
{
    if is_same_kind(x.kind, e) && (is_same_width(v, w) && is_same_width(t.width(), x.width)) {
        let copy = t.copy(alloc)?;
        Ok(Some(copy))
    } else {
        Ok(None)
    }
}

fn constant_if(alloc: Global, x: Extended, w: Width, c: u64) -> Option<Term>
    ensures { tree_found result ≡ spec.constant_if (extended_of x) w c }
{
    if trunc(extended_by(x.kind, x.width, c), w) == c {
        Some(constant_term(alloc, x.width, c))
    } else {
        None
    }
}

fn operand_in(alloc: Global, x: Extended, w: Width, t: &Term) -> Result<Option<Term>, Memory>
    ensures { IfOk result (λ r. tree_found r ≡ spec.operand_in (extended_of x) w (tree_of t.now)) }
{
    match t {
        Term::Sum {
            width,
            constant,
            atoms,
        } => match atoms.as_slice() {
            [] => Ok(constant_if(alloc, x, w, trunc(*constant, *width))),
            [_x, ..] => Ok(None),
        },
        Term::Node {
            head,
            width,
            number: _,
            name: _,
            parts,
        } => match head {
            Head::Zext => match parts.as_slice() {
                [p] => operand_if(alloc, x, Extension::Zero, w, *width, p),
                [] => Ok(None),
                [_p, _q, ..] => Ok(None),
            },
            Head::Sext => match parts.as_slice() {
                [p] => operand_if(alloc, x, Extension::Sign, w, *width, p),
                [] => Ok(None),
                [_p, _q, ..] => Ok(None),
            },
            _ => Ok(None),
        },
    }
}

fn both(x: Extended, left: Option<Term>, right: Option<Term>) -> Option<Operands>
    ensures { operands_found result ≡
        spec.operands_of (extended_of x) (tree_found left) (tree_found right) }
{
    match left {
        Some(left) => match right {
            Some(right) => Some(Operands {
                kind: x.kind,
                width: x.width,
                left,
                right,
            }),
            None => None,
        },
        None => None,
    }
}

fn first(a: Option<Extended>, b: Option<Extended>) -> Option<Extended>
    ensures { extended_found result ≡ option_or (extended_found a) (extended_found b) }
{
    match a {
        Some(x) => Some(x),
        None => b,
    }
}

fn operands_as(
    alloc: Global,
    extended: Option<Extended>,
    w: Width,
    a: &Term,
    b: &Term,
) -> Result<Option<Operands>, Memory>
    ensures { IfOk result (λ r. operands_found r ≡ spec.operands_as (extended_found extended) w
        (tree_of a.now) (tree_of b.now)) }
{
    match extended {
        None => Ok(None),
        Some(x) => {
            let left = operand_in(alloc, x, w, a)?;
            let right = operand_in(alloc, x, w, b)?;
            Ok(both(x, left, right))
        }
    }
}

/// What two terms extend, at least one of them being an extension.
pub fn operands_in(alloc: Global, w: Width, a: &Term, b: &Term) -> Result<Option<Operands>, Memory>
    ensures { IfOk result (λ r. operands_found r ≡ spec.operands_in w (tree_of a.now)
        (tree_of b.now)) }
{
    operands_as(
        alloc,
        first(extension_in(w, a), extension_in(w, b)),
        w,
        a,
        b,
    )
}
