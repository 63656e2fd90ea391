//! The pass over a function.
ghost use Rattle.std.specs.Prelude.{◌≡◌, ◌+◌, ℕ, List, length, IfOk, OnOk, OnErr};
ghost use Rattle.rtx_tree.specs.declared.function.Function.{Function};
ghost use Rattle.md_forms.specs.declared.form.Entry.{Entry};
ghost use Rattle.law_insn_replaced.specs.Sound.{IsSound, PassKeeps};
ghost use Rattle.law_pass_needs.specs.Left.{SameMarks};
ghost use Rattle.combine.specs.Combine as spec;
ghost use Rattle.combine.specs.machine.Found as found;

use crate::search::{Pair, behind, next_pair};
use live_chain::LiveChain;
use md_desc::Description;
use plain_data::Memory;
use rtx_tree::Function;
use std::alloc::Global;

/// Puts one instruction in the place of a pair. Gives a place in front of which no second of a pair
/// stands then. Nothing is put before all is made that takes memory.
fn put(alloc: Global, desc: &Description, chain: &mut LiveChain, pair: Pair) -> Result<u32, Memory>
    requires { found.IsNext desc.now chain.old pair }
    ensures step { OnOk result (spec.IsStep desc.now chain.old chain.new) }
    ensures none { IfOk result (spec.NoneBefore desc.now chain.new) }
    ensures err { OnErr result (chain.new ≡ chain.old) }
{
    let Pair { first, second, new } = pair;
    let end = behind(second)?;
    let rows = chain.rows_for(alloc, first, end, new.as_slice())?;
    // all that takes memory is made, so what follows is not refused
    if chain.fuse(first, end, new, rows) {
        Ok(first)
    } else {
        Ok(0)
    }
}

/// Combines pairs of a chain's instructions, one behind the other, until none is left. Where memory
/// runs out, some whole number of steps was made, and none by half.
///
/// # Errors
///
/// `Memory` where memory ran out, or for places past 32 bits.
pub fn combine_chain(alloc: Global, desc: &Description, chain: &mut LiveChain) -> Result<(), Memory>
    ensures whole { (n : ℕ) × spec.Steps desc.now n chain.old chain.new }
    ensures none { OnOk result (spec.NoneLeft desc.now chain.new) }
{
    let mut from: u32 = 0;
    while let Some(pair) = next_pair(alloc, desc, chain, from)? {
        from = put(alloc, desc, chain, pair)?;
    }
    Ok(())
}

/// The function with pairs of its instructions combined, one behind the other, until none is left,
/// and how many were combined. Places past 32 bits find no memory.
///
/// # Errors
///
/// `Memory` where memory ran out.
#[tactic(auto, using(crate::proofs::One::combined_one, crate::proofs::Ends::steps_long, crate::proofs::Kept::steps_same, crate::proofs::Kept::steps_kept))]
pub fn combine(alloc: Global, desc: &Description, f: Function) -> Result<(Function, usize), Memory>
    ensures combined { IfOk result (λ r. spec.Combined desc.now r.1 f r.0) }
    ensures one { (forms : List Entry) (n m : ℕ) (f g h : Function) → spec.Combined forms n f g →
        spec.Combined forms m f h → (n ≡ m) × (g ≡ h) }
    ensures ends { (forms : List Entry) (n : ℕ) (f g : Function) → spec.Steps forms n f g →
        n + length g.insns ≡ length f.insns }
    ensures marks { (forms : List Entry) (n : ℕ) (f g : Function) → spec.Steps forms n f g →
        SameMarks f g }
    ensures kept { (forms : List Entry) (n : ℕ) (f g : Function) → IsSound f →
        spec.Steps forms n f g → PassKeeps f g }
{
    let mut chain = LiveChain::of(alloc, f);
    let long = chain.len();
    combine_chain(alloc, desc, &mut chain)?;
    let count = long - chain.len();
    Ok((chain.into_function(alloc)?, count))
}
