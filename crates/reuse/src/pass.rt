//! The pass over a function.
ghost use Rattle.std.specs.Prelude.{◌≡◌, ◌+◌, ◌*◌, ◌≤◌, ◌∷◌, [], ℕ, List, Some, length, IfOk};
ghost use Rattle.rtx_tree.specs.declared.function.Function.{Function};
ghost use Rattle.md_forms.specs.declared.form.Entry.{Entry};
ghost use Rattle.law_insn_replaced.specs.Sound.{IsSound, PassKeeps};
ghost use Rattle.law_pass_needs.specs.Left.{SameMarks};
ghost use Rattle.reuse.specs.Reuse as spec;
ghost use Rattle.reuse.specs.machine.Found as found;

use crate::dead::first_dead;
use crate::search::{Repeat, Span, behind, next_repeat};
use live_chain::LiveChain;
use md_desc::Description;
use plain_data::{Items, Memory};
use rtx_tree::{Function, Insn, Insns, MOST_REUSED};
use std::alloc::Global;

/// Where what a step takes up can stand.
#[derive(Clone, Copy)]
pub struct Sight {
    /// Repeated values stand within.
    pub span: Span,
    /// No dead set stands in front of this place.
    pub dead: u32,
}

/// So many places behind a place.
fn past(place: u32, more: u32) -> usize
    ensures { result ≡ place + more }
{
    place as usize + more as usize
}

fn one_insn(alloc: Global, insn: Insn) -> Result<Insns, Memory>
    ensures { IfOk result (λ insns. insns ≡ insn ∷ []) }
{
    let mut insns = Items::new(alloc);
    insns.push(insn)?;
    Ok(insns)
}

/// Puts the instruction of a repeated value that is next at its place. Gives where others can stand
/// then.
fn put(
    alloc: Global,
    desc: &Description,
    chain: &mut LiveChain,
    repeat: Repeat,
    sight: Sight,
) -> Result<Sight, Memory>
    requires next { found.NextRepeat desc.now chain.old (Some repeat) }
    requires seen { found.AreSeen desc.now chain.old sight }
    ensures { IfOk result (λ sight. found.Stepped desc.now chain.old chain.new (Some sight)) }
{
    let Repeat { second, new, .. } = repeat;
    let after = behind(second)?;
    let insns = one_insn(alloc, new)?;
    let same = chain.replace(alloc, second, after, insns)?;
    let far = past(second, MOST_REUSED + 1);
    let end = sight.span.end.max(far);
    Ok(Sight {
        span: Span {
            from: second,
            end,
            firsts: end,
        },
        dead: sight.dead.min(same),
    })
}

/// Takes the instruction at the place of the first dead set out. Gives where repeated values and
/// dead sets can stand then.
fn take(
    alloc: Global,
    desc: &Description,
    chain: &mut LiveChain,
    place: u32,
) -> Result<Sight, Memory>
    requires none { spec.NoneRepeats desc.now chain.old }
    requires first { spec.IsFirstDead chain.old place }
    ensures { IfOk result (λ sight. found.Stepped desc.now chain.old chain.new (Some sight)) }
{
    let after = behind(place)?;
    let dead = chain.replace(alloc, place, after, Items::new(alloc))?;
    let end = past(place, MOST_REUSED);
    Ok(Sight {
        span: Span {
            from: place,
            end,
            firsts: place as usize,
        },
        dead,
    })
}

/// One step, or `None` exactly where there is none.
fn step(
    alloc: Global,
    desc: &Description,
    chain: &mut LiveChain,
    sight: Sight,
) -> Result<Option<Sight>, Memory>
    requires { found.AreSeen desc.now chain.old sight }
    ensures { IfOk result (found.Stepped desc.now chain.old chain.new) }
{
    if let Some(repeat) = next_repeat(alloc, desc, chain, sight.span)? {
        return Ok(Some(put(alloc, desc, chain, repeat, sight)?));
    }
    match first_dead(alloc, chain, sight.dead)? {
        Some(place) => Ok(Some(take(alloc, desc, chain, place)?)),
        None => Ok(None),
    }
}

/// One more. A number past 64 bits finds no memory.
fn counted(count: usize) -> Result<usize, Memory>
    ensures { IfOk result (λ n. n ≡ count + 1) }
{
    match count.checked_add(1) {
        Some(count) => Ok(count),
        None => Err(Memory),
    }
}

/// The function with repeated values reused and dead sets gone, one behind the other, until there
/// is neither, and how many steps that took. Places past 32 bits find no memory.
///
/// # Errors
///
/// `Memory` where memory ran out.
#[tactic(auto, using(crate::proofs::One::reused_one, crate::proofs::Ends::steps_few, crate::proofs::Kept::steps_same, crate::proofs::Kept::steps_kept))]
pub fn reuse(alloc: Global, desc: &Description, f: Function) -> Result<(Function, usize), Memory>
    ensures reused { IfOk result (λ r. spec.Reused desc.now r.1 f r.0) }
    ensures one { (forms : List Entry) (n m : ℕ) (f g h : Function) → spec.Reused forms n f g →
        spec.Reused forms m f h → (n ≡ m) × (g ≡ h) }
    ensures ends { (forms : List Entry) (n : ℕ) (f g : Function) → spec.Steps forms n f g →
        n ≤ 2 * length f.insns }
    ensures marks { (forms : List Entry) (n : ℕ) (f g : Function) → spec.Steps forms n f g →
        SameMarks f g }
    ensures kept { (forms : List Entry) (n : ℕ) (f g : Function) → IsSound f →
        spec.Steps forms n f g → PassKeeps f g }
{
    let mut chain = LiveChain::of(alloc, f);
    let end = chain.len();
    let mut sight = Sight {
        span: Span {
            from: 0,
            end,
            firsts: end,
        },
        dead: 0,
    };
    let mut count: usize = 0;
    while let Some(next) = step(alloc, desc, &mut chain, sight)? {
        sight = next;
        count = counted(count)?;
    }
    Ok((chain.into_function(alloc)?, count))
}
