//! All rules, on a whole expression.
ghost use Rattle.std.specs.Prelude.{◌≡◌, unwrap_or};
ghost use Rattle.std.specs.Option.{is_some};
ghost use Rattle.rtx_simple.specs.Simple as spec;

use crate::rules::{
    compared_with_zero, constant_second, extended_constant, extension_cut, joined_constants,
    without_zero,
};
use rtx_tree::Rtx;
use std::alloc::Global;

/// The first of the rules that applies.
#[tactic(auto, unfolding(crate::specs::Simple::once))]
fn once(alloc: Global, x: &mut Rtx) -> bool
    ensures done { result ≡ is_some (spec.once x.old) }
    ensures tree { x.new ≡ unwrap_or (spec.once x.old) x.old }
{
    if extended_constant(alloc, x) {
        return true;
    }
    if joined_constants(alloc, x) {
        return true;
    }
    if without_zero(alloc, x) {
        return true;
    }
    if compared_with_zero(alloc, x) {
        return true;
    }
    if extension_cut(alloc, x) {
        return true;
    }
    constant_second(alloc, x)
}

/// The rules, until none applies: three do at most.
#[tactic(auto, using(crate::proofs::Turns::turns, crate::proofs::Turns::ends))]
fn settle(alloc: Global, x: &mut Rtx)
    ensures { x.new ≡ spec.settled 3 x.old }
{
    if once(alloc, x) {
        if once(alloc, x) {
            once(alloc, x);
        }
    }
}

/// The parts of an expression, and then the whole.
#[tactic(auto, using(crate::proofs::Front::the_front))]
fn simplify_parts(alloc: Global, x: &mut Rtx)
    ensures { x.new ≡ spec.simplified x.old }
{
    for i in 0..x.kids.len() {
        simplify_parts(alloc, x.kids.item_mut(i));
    }
    settle(alloc, x);
}

/// Simplifies an expression in its place. It takes no memory, and leaves no part to which a rule
/// applies.
#[tactic(auto, using(crate::proofs::Whole::simplified_simple))]
pub fn simplify(alloc: Global, x: &mut Rtx)
    ensures simplified { x.new ≡ spec.simplified x.old }
    ensures simple { spec.IsSimple x.new }
{
    simplify_parts(alloc, x);
}
