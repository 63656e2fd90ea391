//! A tree's head over other parts.
ghost use Rattle.std.specs.Prelude.{◌≡◌, IfOk};
ghost use Rattle.rtx_tree.specs.Tree.{head_of, tree_of};

use plain_data::Memory;
use rtx_tree::{Kids, Rtx};
use std::alloc::Global;

/// The tree of another's head and parts.
pub fn with_parts(alloc: Global, head: &Rtx, kids: Kids) -> Result<Rtx, Memory>
    ensures { IfOk result (λ r. r ≡ tree_of (head_of head.now) kids) }
{
    Ok(Rtx {
        code: head.code,
        mode: head.mode,
        number: head.number,
        name: head.name.copy(alloc)?,
        kids,
    })
}
