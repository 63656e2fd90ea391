//! Changes of one part of a tree. Each takes the part out, changes it, and puts it back.
ghost use Rattle.std.specs.Prelude.{◌≡◌, length, reverse, IsSome, IfSome, option_and_then};
ghost use Rattle.rtx_tree.specs.Tree.{kids_of, part_at, replaced_at};
ghost use Rattle.rtx_pool.specs.Trees.{with_head, with_kids_turned};

use rtx_tree::{Code, Kids, Mode, Rtx};
use std::alloc::Global;

/// Puts another code, mode and number in the place of a tree's. Its name and its kids stay.
fn put_head(x: &mut Rtx, code: Code, mode: Mode, number: i64)
    ensures { x.new ≡ with_head code mode number x.old }
{
    x.code = code;
    x.mode = mode;
    x.number = number;
}

/// Puts another code, mode and number in the place of those of the part at a path. Its name and its
/// kids stay.
#[tactic(auto, using(crate::proofs::Parts::changed, crate::proofs::Parts::still_there))]
pub fn set_head(alloc: Global, x: &mut Rtx, path: &[u32], code: Code, mode: Mode, number: i64)
    requires { IsSome (part_at x.old path.now) }
    ensures { IfSome (part_at x.old path.now) (λ part.
        x.new ≡ replaced_at path.now (with_head code mode number part) x.old) }
{
    let mut part = x.replace_at(path, Rtx::const_int(alloc, 0));
    put_head(&mut part, code, mode, number);
    x.replace_at(path, part);
}

/// Puts a part of the part at a path in the place of the part.
#[tactic(auto, using(crate::proofs::Parts::changed, crate::proofs::Parts::still_there))]
pub fn hoist(alloc: Global, x: &mut Rtx, path: &[u32], inner: &[u32])
    requires { IsSome (option_and_then (λ part. part_at part inner.now) (part_at x.old path.now)) }
    ensures { IfSome (part_at x.old path.now) (λ part. IfSome (part_at part inner.now) (λ kept.
        x.new ≡ replaced_at path.now kept x.old)) }
{
    let mut part = x.replace_at(path, Rtx::const_int(alloc, 0));
    let kept = part.replace_at(inner, Rtx::const_int(alloc, 0));
    x.replace_at(path, kept);
}

/// Two kids in the other order.
#[tactic(auto, using(crate::proofs::Parts::exchanged))]
fn exchange(alloc: Global, kids: &mut Kids)
    requires { length kids.old ≡ 2 }
    ensures { kids.new ≡ reverse kids.old }
{
    let first = kids.replace(0, Rtx::const_int(alloc, 0));
    let second = kids.replace(1, first);
    kids.replace(0, second);
}

/// Exchanges the two kids of the part at a path.
#[tactic(auto, using(crate::proofs::Parts::changed, crate::proofs::Parts::still_there))]
pub fn swap(alloc: Global, x: &mut Rtx, path: &[u32])
    requires there { IsSome (part_at x.old path.now) }
    requires two { IfSome (part_at x.old path.now) (λ part. length (kids_of part) ≡ 2) }
    ensures { IfSome (part_at x.old path.now) (λ part.
        x.new ≡ replaced_at path.now (with_kids_turned part) x.old) }
{
    let mut part = x.replace_at(path, Rtx::const_int(alloc, 0));
    exchange(alloc, &mut part.kids);
    x.replace_at(path, part);
}
