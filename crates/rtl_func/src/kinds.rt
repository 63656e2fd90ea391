//! Kinds of instructions.
ghost use Rattle.std.specs.Prelude.{◌≡◌};
ghost use Rattle.rtl_func.specs.Kinds as spec;

use crate::shape::{class_at, is_call};
use rtx_tree::{Class, Rtx};

/// Whether a tree is a return or a set of the pc.
pub fn is_jump_tree(x: &Rtx) -> bool
    ensures { result ≡ spec.is_jump_tree x.now }
{
    match (class_at(x), x.kids.as_slice()) {
        (Class::Return, _) => true,
        (Class::Setting, [target, ..]) => target.is_pc(),
        _ => false,
    }
}

/// Whether a tree is a call or a set of one.
pub fn is_call_tree(x: &Rtx) -> bool
    ensures { result ≡ spec.is_call_tree x.now }
{
    match (class_at(x), x.kids.as_slice()) {
        (Class::Call, _) => true,
        (Class::Setting, [_, source]) => is_call(source),
        _ => false,
    }
}

/// Whether a tree is neither a jump nor a call.
pub fn is_plain_tree(x: &Rtx) -> bool
    ensures { result ≡ spec.is_plain_tree x.now }
{
    !(is_jump_tree(x) || is_call(x))
}

/// Whether a tree is `(parallel [])`.
pub fn is_nothing(x: &Rtx) -> bool
    ensures { result ≡ spec.is_nothing x.now }
{
    match (class_at(x), x.kids.as_slice()) {
        (Class::Parallel, []) => true,
        _ => false,
    }
}
