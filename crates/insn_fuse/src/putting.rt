//! The second instruction with the first's source.
ghost use Rattle.std.specs.Prelude.{◌≡◌, ℕ, true, List, [], IfOk, IsSome};
ghost use Rattle.rtx_tree.specs.declared.function.ArgUse.{ArgUse};
ghost use Rattle.rtx_tree.specs.declared.tree.Rtx.{Rtx};
ghost use Rattle.rtx_tree.specs.Tree.{part_at, replaced_at};
ghost use Rattle.rtl_func.specs.Calls.{argument_registers};
ghost use Rattle.insn_fuse.specs.Fused as spec;

use plain_data::Memory;
use rtx_pool::RtxPool;
use rtx_simple::simplify;
use rtx_tree::{Path, Rtx};
use std::alloc::Global;

/// A pattern with a copy of an expression put in at a path that exists. Both are placed in a pool,
/// which has room for them, and the one is put into the other there.
fn joined(alloc: Global, second: &Rtx, path: &Path, source: &Rtx) -> Result<Rtx, Memory>
    requires { IsSome (part_at second.now path.now) }
    ensures { IfOk result (λ x. x ≡ replaced_at path.now source.now second.now) }
{
    let mut pool = RtxPool::new(alloc);
    pool.reserve(2)?;
    let whole = pool.place(alloc, second)?;
    let part = pool.place(alloc, source)?;
    pool.replace_at(alloc, whole, path.as_slice(), part);
    Ok(pool.take(whole))
}

/// A pattern with a copy of an expression put in at a path that exists, and simplified. Where of the
/// hard registers both name a0 to a7 alone, so does it.
#[tactic(auto, using(crate::proofs::Kept::fused_arguments))]
pub fn fused(alloc: Global, second: &Rtx, path: &Path, source: &Rtx) -> Result<Rtx, Memory>
    requires { IsSome (part_at second.now path.now) }
    ensures fused { IfOk result (λ x. x ≡ spec.fused second.now path.now source.now) }
    ensures arguments { (second : Rtx) (path : List ℕ) (source : Rtx) (uses : List ArgUse) →
        argument_registers second uses ≡ true → argument_registers source [] ≡ true →
        argument_registers (spec.fused second path source) uses ≡ true }
{
    let mut whole = joined(alloc, second, path, source)?;
    simplify(alloc, &mut whole);
    Ok(whole)
}
