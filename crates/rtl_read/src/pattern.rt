//! The patterns of instructions.
ghost use Rattle.std.specs.Prelude.{◌≡◌, IfOk};
ghost use Rattle.lisp_read.specs.declared.position.Position.TheVariants.{Pattern};
ghost use Rattle.lisp_read.specs.Expression.{read_at};
ghost use Rattle.lisp_read.specs.Parsed.{Gives};
ghost use Rattle.rtl_read.specs.Word as spec;
ghost use Rattle.rtl_read.specs.machine.Head as head;

use crate::head::named_code;
use lisp_read::{RtlRefusal, Tree, outside, rtx_of_tree};
use plain_data::Memory;
use rtx_tree::Rtx;
use std::alloc::Global;

/// Whether the head of the tree names the code of an effect.
fn names_pattern(tree: &Tree) -> bool
    ensures { result ≡ head.names_pattern tree.now }
{
    match named_code(tree) {
        Some(code) => code.class().is_effect(),
        None => false,
    }
}

/// What an instruction does.
#[tactic(auto, using(crate::proofs::Patterns::pattern_out))]
pub fn pattern(alloc: Global, tree: &Tree) -> Result<Rtx, RtlRefusal>
    ensures { Gives result (read_at Pattern tree.now) }
{
    if names_pattern(tree) {
        rtx_of_tree(alloc, tree)
    } else {
        Err(outside(alloc, tree))
    }
}

/// The expression of a tree, if it is one.
pub fn expression(alloc: Global, tree: &Tree) -> Result<Option<Rtx>, Memory>
    ensures { IfOk result (λ x. x ≡ spec.expression_of tree.now) }
{
    match rtx_of_tree(alloc, tree) {
        Ok(x) => Ok(Some(x)),
        Err(RtlRefusal::Construct { .. }) => Ok(None),
        Err(RtlRefusal::Memory) => Err(Memory),
    }
}
