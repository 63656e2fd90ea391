//! The locals of a function that doesn't tell their size.
ghost use Rattle.std.specs.Prelude.{◌≡◌};
ghost use Rattle.rtl_read.specs.Locals as spec;

use rtx_tree::{Code, Insn, Rtx};

/// How far below 0 a number is, where that has 32 bits.
fn depth_of(number: i64) -> u32
    ensures { result ≡ spec.depth_of number }
{
    if number < 0 && number.unsigned_abs() < 4_294_967_296 {
        number.unsigned_abs() as u32
    } else {
        0
    }
}

fn depth_below(a: &Rtx, b: &Rtx) -> u32
    ensures { result ≡ spec.depth_below a.now b.now }
{
    if a.is_stack_vars() && b.is_constant() {
        depth_of(b.number)
    } else {
        0
    }
}

/// How far below `virtual-stack-vars` a sum of it and a constant goes.
fn depth_at(x: &Rtx) -> u32
    ensures { result ≡ spec.depth_at x.now }
{
    match (x.code, x.kids.as_slice()) {
        (Code::Plus, [a, b]) => depth_below(a, b).max(depth_below(b, a)),
        _ => 0,
    }
}

/// How far the deepest sum in a tree goes.
#[tactic(auto, using(crate::proofs::Depths::deepest_out))]
fn deepest_in(x: &Rtx) -> u32
    ensures { result ≡ spec.deepest_in x.now }
{
    let mut deepest = depth_at(x);
    for kid in x.kids.as_slice() {
        deepest = deepest.max(deepest_in(kid));
    }
    deepest
}

/// The size of the locals, by the sums with `virtual-stack-vars`.
pub fn locals_in(insns: &[Insn]) -> u32
    ensures { result ≡ spec.locals_in insns.now }
{
    let mut deepest = 0;
    for insn in insns {
        deepest = deepest.max(deepest_in(&insn.pattern));
    }
    deepest
}
