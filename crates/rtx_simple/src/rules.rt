//! The rules, one by one. Each says whether it applies, and changes the tree where it does.
ghost use Rattle.std.specs.Prelude.{◌≡◌, ◌<◌, length, slice_get, slice_set, Some, option_copied, unwrap_or};
ghost use Rattle.std.specs.Option.{is_some};
ghost use Rattle.rtx_tree.specs.Code.{same_mode};
ghost use Rattle.rtx_tree.specs.Tree.{head_of, kids_of, node_of, const_of};
ghost use Rattle.rtx_simple.specs.Simple as spec;
ghost use Rattle.rtx_simple.specs.machine.Tests as tests;

use rtx_pool::{hoist, set_head, swap};
use rtx_tree::{Class, Code, Mode, Name, Rtx};
use std::alloc::Global;

fn is_zero(x: &Rtx) -> bool
    ensures { result ≡ spec.is_zero x.now }
{
    x.is_constant() && x.number == 0
}

/// The first kid in the place of the tree.
fn raise(alloc: Global, x: &mut Rtx)
    requires { 0 < length (kids_of x.old) }
    ensures { slice_get (kids_of x.old) 0 ≡ Some x.new }
{
    hoist(alloc, x, &[], &[0]);
}

/// The operation of a code and a mode on the kids of the tree.
fn remake(alloc: Global, x: &mut Rtx, code: Code, mode: Mode)
    ensures { x.new ≡ node_of code mode (kids_of x.old) }
{
    x.name = Name::empty(alloc);
    set_head(alloc, x, &[], code, mode, 0);
}

// ---- an extension of a constant

/// What a sign or zero extension extends.
fn extended(x: &Rtx) -> Option<&Rtx>
    ensures { option_copied result ≡ spec.extended x.now }
{
    match (x.code.class(), x.kids.as_slice()) {
        (Class::Extension, [a]) => Some(a),
        _ => None,
    }
}

#[tactic(auto, unfolding(crate::specs::Simple::extended_constant))]
fn extends_constant(x: &Rtx) -> bool
    ensures { result ≡ is_some (spec.extended_constant x.now) }
{
    match extended(x) {
        Some(a) => a.is_constant(),
        None => false,
    }
}

/// An extension of a constant becomes the constant.
#[tactic(auto, unfolding(crate::specs::Simple::extended_constant))]
pub fn extended_constant(alloc: Global, x: &mut Rtx) -> bool
    ensures done { result ≡ is_some (spec.extended_constant x.old) }
    ensures tree { x.new ≡ unwrap_or (spec.extended_constant x.old) x.old }
{
    if !extends_constant(x) {
        return false;
    }
    raise(alloc, x);
    true
}

// ---- constants of two sums

/// The number of a constant.
fn constant_of(x: &Rtx) -> Option<i64>
    ensures { result ≡ tests.constant_of x.now }
{
    if x.is_constant() {
        Some(x.number)
    } else {
        None
    }
}

/// The constant of a sum that has one second.
fn constant_added(x: &Rtx) -> Option<i64>
    ensures { result ≡ tests.constant_added x.now }
{
    match (x.code, x.kids.as_slice()) {
        (Code::Plus, [_, b]) => constant_of(b),
        _ => None,
    }
}

#[tactic(auto, using(std::proofs::lemmas::Int::wrapping_add_is))]
fn wrapping_sum(c: i64, d: i64) -> i64
    ensures { result ≡ spec.wrapping_sum c d }
{
    c.wrapping_add(d)
}

fn sum_of(inner: Option<i64>, outer: Option<i64>) -> Option<i64>
    ensures { result ≡ tests.sum_of inner outer }
{
    match (inner, outer) {
        (Some(c), Some(d)) => Some(wrapping_sum(c, d)),
        _ => None,
    }
}

/// The constant of two sums, of which one stands first in the other.
fn joined(x: &Rtx) -> Option<i64>
    ensures { result ≡ tests.joined x.now }
{
    match (x.code, x.kids.as_slice()) {
        (Code::Plus, [a, b]) => sum_of(constant_added(a), constant_of(b)),
        _ => None,
    }
}

/// Another constant in the place of the second kid.
fn put_constant(alloc: Global, x: &mut Rtx, number: i64)
    requires { 1 < length (kids_of x.old) }
    ensures { kids_of x.new ≡ slice_set (kids_of x.old) 1 (const_of number) }
{
    x.kids.replace(1, Rtx::const_int(alloc, number));
}

/// A sum in which another stands first, with the constant of both.
#[tactic(auto, using(crate::proofs::Applied::joins))]
fn join(alloc: Global, x: &mut Rtx, sum: i64)
    requires { tests.joined x.old ≡ Some sum }
    ensures { spec.joined_constants x.old ≡ Some x.new }
{
    let mode = x.mode;
    raise(alloc, x);
    put_constant(alloc, x, sum);
    remake(alloc, x, Code::Plus, mode);
}

/// The constants of two sums, of which one stands first in the other, become one.
#[tactic(auto, using(crate::proofs::Applied::joins_not))]
pub fn joined_constants(alloc: Global, x: &mut Rtx) -> bool
    ensures done { result ≡ is_some (spec.joined_constants x.old) }
    ensures tree { x.new ≡ unwrap_or (spec.joined_constants x.old) x.old }
{
    let Some(sum) = joined(x) else {
        return false;
    };
    join(alloc, x, sum);
    true
}

// ---- a sum with 0

#[tactic(auto, unfolding(crate::specs::Simple::without_zero))]
fn adds_zero(x: &Rtx) -> bool
    ensures { result ≡ is_some (spec.without_zero x.now) }
{
    match (x.code, x.kids.as_slice()) {
        (Code::Plus, [_, b]) => is_zero(b),
        _ => false,
    }
}

/// A sum with 0 becomes its first term.
#[tactic(auto, unfolding(crate::specs::Simple::without_zero))]
pub fn without_zero(alloc: Global, x: &mut Rtx) -> bool
    ensures done { result ≡ is_some (spec.without_zero x.old) }
    ensures tree { x.new ≡ unwrap_or (spec.without_zero x.old) x.old }
{
    if !adds_zero(x) {
        return false;
    }
    raise(alloc, x);
    true
}

// ---- a comparison compared with 0

/// The comparison that a test of another with 0 is.
fn tested(code: Code, inner: Code) -> Option<Code>
    ensures { result ≡ spec.tested code inner }
{
    match code {
        Code::Ne => {
            if matches!(inner.class(), Class::Comparison) {
                Some(inner)
            } else {
                None
            }
        }
        Code::Eq => inner.reversed(),
        _ => None,
    }
}

fn compared(x: &Rtx) -> Option<Code>
    ensures { result ≡ tests.compared x.now }
{
    match x.kids.as_slice() {
        [inner, zero] => {
            if is_zero(zero) {
                tested(x.code, inner.code)
            } else {
                None
            }
        }
        _ => None,
    }
}

/// A comparison that is compared with 0 becomes itself or its reverse.
#[tactic(auto, using(crate::proofs::Applied::compares), unfolding(crate::specs::Simple::compared_with_zero))]
pub fn compared_with_zero(alloc: Global, x: &mut Rtx) -> bool
    ensures done { result ≡ is_some (spec.compared_with_zero x.old) }
    ensures tree { x.new ≡ unwrap_or (spec.compared_with_zero x.old) x.old }
{
    let Some(own) = compared(x) else {
        return false;
    };
    let mode = x.mode;
    raise(alloc, x);
    remake(alloc, x, own, mode);
    true
}

// ---- the low part of an extension

/// Of what a tree is the low part.
fn lowpart_of(x: &Rtx) -> Option<&Rtx>
    ensures { option_copied result ≡ spec.lowpart_of x.now }
{
    match (x.code, x.kids.as_slice()) {
        (Code::Subreg, [a]) => Some(a),
        _ => None,
    }
}

fn has_mode(x: &Rtx, mode: Mode) -> bool
    ensures { result ≡ same_mode (head_of x.now).mode mode }
{
    x.mode.name() == mode.name()
}

#[tactic(auto, unfolding(crate::specs::Simple::extension_cut))]
fn cuts_extension(x: &Rtx) -> bool
    ensures { result ≡ is_some (spec.extension_cut x.now) }
{
    let Some(whole) = lowpart_of(x) else {
        return false;
    };
    match extended(whole) {
        Some(a) => has_mode(a, x.mode),
        None => false,
    }
}

/// The low part of an extension becomes what is extended, where that has the mode.
#[tactic(auto, unfolding(crate::specs::Simple::extension_cut))]
pub fn extension_cut(alloc: Global, x: &mut Rtx) -> bool
    ensures done { result ≡ is_some (spec.extension_cut x.old) }
    ensures tree { x.new ≡ unwrap_or (spec.extension_cut x.old) x.old }
{
    if !cuts_extension(x) {
        return false;
    }
    raise(alloc, x);
    raise(alloc, x);
    true
}

// ---- a constant that stands first

fn is_exchangeable(code: Code) -> bool
    ensures { result ≡ spec.is_exchangeable code }
{
    matches!(
        code,
        Code::Plus | Code::Mult | Code::And | Code::Ior | Code::Xor
    )
}

#[tactic(auto, unfolding(crate::specs::Simple::constant_second))]
fn begins_with_constant(x: &Rtx) -> bool
    ensures { result ≡ is_some (spec.constant_second x.now) }
{
    match x.kids.as_slice() {
        [a, b] => is_exchangeable(x.code) && a.is_constant() && !b.is_constant(),
        _ => false,
    }
}

/// A constant that stands before an expression goes behind it.
#[tactic(auto, using(crate::proofs::Applied::exchanges, crate::proofs::Applied::exchanges_two), unfolding(crate::specs::Simple::constant_second))]
pub fn constant_second(alloc: Global, x: &mut Rtx) -> bool
    ensures done { result ≡ is_some (spec.constant_second x.old) }
    ensures tree { x.new ≡ unwrap_or (spec.constant_second x.old) x.old }
{
    if !begins_with_constant(x) {
        return false;
    }
    swap(alloc, x, &[]);
    true
}
