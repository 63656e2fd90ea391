//! The pattern of a pair.
ghost use Rattle.std.specs.Prelude.{◌≡◌, ◌<◌, ℕ, true, false, length, Some, slice_get, IfOk, IsSome};
ghost use Rattle.rtx_tree.specs.Tree.{part_at};
ghost use Rattle.rtx_tree.specs.declared.function.Insn.{Insn};
ghost use Rattle.combine.specs.Combine as spec;
ghost use Rattle.combine.specs.machine.Found as found;

use crate::shallow::is_shallow;
use form_needs::lower_facts;
use insn_fuse::fused;
use live_chain::LiveChain;
use md_desc::Description;
use plain_data::Memory;
use rtx_tree::{Path, Rtx};
use std::alloc::Global;

/// Whether a pattern is not too deep, and some form matches it.
fn is_formed(alloc: Global, desc: &Description, x: &Rtx) -> Result<bool, Memory>
    ensures some { IfOk result (λ formed. formed ≡ true → spec.IsFormed desc.now x.now) }
    ensures none { IfOk result (λ formed. formed ≡ false → spec.IsFormed desc.now x.now → ⊥) }
{
    if !is_shallow(x) {
        return Ok(false);
    }
    match desc.recog(alloc, x, &lower_facts(alloc))? {
        Some(_) => Ok(true),
        None => Ok(false),
    }
}

/// The pattern of two instructions as one, with the first's source at a path of the second's, or
/// `None` exactly where there is none.
pub fn made_of(
    alloc: Global,
    desc: &Description,
    chain: &LiveChain,
    first: u32,
    second: u32,
    path: &Path,
) -> Result<Option<Rtx>, Memory>
    requires order { first < second }
    requires within { second < length chain.now.insns }
    requires there { (i : Insn) → slice_get chain.now.insns second ≡ Some i →
        IsSome (part_at i.pattern path.now) }
    ensures { IfOk result (found.Made desc.now chain.now first second path.now) }
{
    let one = chain.insn(first);
    let other = chain.insn(second);
    let Some(source) = one.pattern.kids.as_slice().get(1) else {
        return Ok(None);
    };
    let x = fused(alloc, &other.pattern, path, source)?;
    if is_formed(alloc, desc, &x)? {
        Ok(Some(x))
    } else {
        Ok(None)
    }
}
