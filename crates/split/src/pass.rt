//! The pass over a function.
ghost use Rattle.std.specs.Prelude.{◌≡◌, ◌+◌, ◌<◌, ◌≤◌, IfOk, Some, Ok, length, slice_get, List};
ghost use Rattle.rtx_tree.specs.declared.function.Function.{Function};
ghost use Rattle.rtx_tree.specs.declared.function.Insn.{Insn};
ghost use Rattle.rtl_chain.specs.Counts.{next_pseudo};
ghost use Rattle.md_forms.specs.declared.form.Entry.{Entry};
ghost use Rattle.law_insn_replaced.specs.law_pass_needs.Left.{SameMarks};
ghost use Rattle.law_insn_replaced.specs.law_pass_needs.Reloadable.{UidsDiffer};
ghost use Rattle.law_insn_replaced.specs.pass_refusal.Outcome.{Gives};
ghost use Rattle.law_function_kept.specs.Keeps.{Keeps};
ghost use Rattle.law_insn_replaced.specs.law_window_lines.ForLines.{MarksAreEmpty};
ghost use Rattle.law_insn_replaced.specs.Sound.{IsSound, PassKeeps};
ghost use Rattle.split.specs.Split as spec;
ghost use Rattle.split.specs.Split.{Answer, IsSplit, SplitComes};
ghost use Rattle.rtx_tree.specs.Limit.{most_splits};
ghost use Rattle.split.specs.Left.{AreLeft, AreOldOrNew, AreNatural};
ghost use Rattle.pass_name.specs.declared.pass.Pass.{Pass};
ghost use Rattle.pass_name.specs.declared.pass.Pass.TheVariants.{Split1};
ghost use Rattle.split.specs.machine.Runs.{FoundSplits, PlaceSplits, RunSplits};

use crate::form::{FormSplit, first_split};
use insn_replace::replace_insn;
use live_chain::LiveChain;
use md_desc::Description;
use pass_name::Pass;
use pass_refusal::PassRefusal;
use plain_data::Memory;
use rtx_tree::{Function, Limit, MOST_SPLITS};
use std::alloc::Global;

/// The refusal of more splits that follow from one another.
fn too_deep() -> PassRefusal
    ensures { result ≡ spec.too_deep }
{
    PassRefusal::Limit {
        which: Limit::SplitDepth,
        count: u64::from(MOST_SPLITS) + 1,
    }
}

/// The number of the next free pseudo register. One past 32 bits finds no memory.
fn next_pseudo(chain: &mut LiveChain) -> Result<u32, Memory>
    ensures next { IfOk result (λ next. next ≡ next_pseudo chain.old.insns) }
    ensures same { chain.new ≡ chain.old }
{
    let next = chain.next_pseudo();
    if next > u64::from(u32::MAX) {
        return Err(Memory);
    }
    Ok(next as u32)
}

/// The place behind another. One past 32 bits finds no memory.
fn place_behind(place: u32) -> Result<u32, Memory>
    ensures { IfOk result (λ behind. behind ≡ place + 1) }
{
    match place.checked_add(1) {
        Some(behind) => Ok(behind),
        None => Err(Memory),
    }
}

/// Puts what a form gives in the place of the instruction that it splits. Gives how many
/// instructions that are.
fn split_by(
    alloc: Global,
    desc: &Description,
    pass: Pass,
    chain: &mut LiveChain,
    place: u32,
    depth: u32,
    found: FormSplit,
) -> Result<u32, PassRefusal>
    requires within { place < length chain.old.insns }
    requires found { (i : Insn) → slice_get chain.old.insns place ≡ Some i →
        IsSplit desc.now pass (next_pseudo chain.old.insns) i found.form found.sequence }
    ensures { FoundSplits desc.now pass depth chain.old place chain.new result }
{
    if depth >= MOST_SPLITS {
        return Err(too_deep());
    }
    replace_insn(alloc, desc, found.form, chain, place, found.sequence)
}

/// Splits the instruction at a place, which follows from so many splits. Gives how many
/// instructions stand in its place, or `None` where it stays.
fn split_place(
    alloc: Global,
    desc: &Description,
    pass: Pass,
    chain: &mut LiveChain,
    place: u32,
    depth: u32,
) -> Result<Option<u32>, PassRefusal>
    requires { place < length chain.old.insns }
    ensures { PlaceSplits desc.now pass depth chain.old place chain.new result }
{
    let next = next_pseudo(chain)?;
    let insn = chain.insn(place);
    match first_split(alloc, desc, pass, next, insn)? {
        Some(found) => {
            let made = split_by(alloc, desc, pass, chain, place, depth, found)?;
            Ok(Some(made))
        }
        None => Ok(None),
    }
}

/// Splits so many instructions from a place on, which follow from so many splits, and what comes of
/// them. Gives the place behind.
fn split_run(
    alloc: Global,
    desc: &Description,
    pass: Pass,
    chain: &mut LiveChain,
    place: u32,
    count: u32,
    depth: u32,
) -> Result<u32, PassRefusal>
    requires within { place + count ≤ length chain.old.insns }
    requires depth { depth ≤ most_splits }
    ensures { RunSplits desc.now pass count depth chain.old place chain.new result }
{
    let mut at = place;
    let mut left = count;
    while left > 0 {
        match split_place(alloc, desc, pass, chain, at, depth)? {
            Some(made) => at = split_run(alloc, desc, pass, chain, at, made, depth + 1)?,
            None => at = place_behind(at)?,
        }
        left -= 1;
    }
    Ok(at)
}

/// Splits the instructions of a function.
fn split_all(
    alloc: Global,
    desc: &Description,
    f: Function,
    pass: Pass,
) -> Result<Function, PassRefusal>
    ensures { Gives result (SplitComes desc.now pass f) }
{
    if f.insns.len() > u32::MAX as usize {
        return Err(PassRefusal::Memory);
    }
    let count = f.insns.len() as u32;
    let mut chain = LiveChain::of(alloc, f);
    split_run(alloc, desc, pass, &mut chain, 0, count, 0)?;
    Ok(chain.into_function(alloc)?)
}

/// Splits the instructions of a function: each that a split form of the description matches is
/// replaced by the sequence of the first that does not fail, and the new instructions are tried
/// again.
///
/// # Errors
///
/// `Limit` of `SplitDepth` at the ninth split that follows from others; `Limit` of `Instructions`
/// where the function would be too long; `NotEquated`, or `Limit` of `TermSize`, where a sequence is
/// not equated with the instruction in whose place it would stand; `Memory` where memory ran out.
pub fn split(
    alloc: Global,
    desc: &Description,
    f: Function,
    pass: Pass,
) -> Result<Function, PassRefusal>
    ensures gives { Gives result (SplitComes desc.now pass f) }
    ensures one { (forms : List Entry) (pass : Pass) (f : Function) (a b : Answer) →
        SplitComes forms pass f a → SplitComes forms pass f b → a ≡ b }
    ensures left { (forms : List Entry) (pass : Pass) (f g : Function) →
        SplitComes forms pass f (Ok g) → AreLeft forms pass g }
    ensures marks { (forms : List Entry) (pass : Pass) (f g : Function) →
        SplitComes forms pass f (Ok g) → SameMarks f g }
    ensures new { (forms : List Entry) (pass : Pass) (f g : Function) →
        SplitComes forms pass f (Ok g) → AreOldOrNew pass f g }
    ensures uids { (forms : List Entry) (pass : Pass) (f g : Function) → UidsDiffer f →
        SplitComes forms pass f (Ok g) → UidsDiffer g }
    ensures natural { (forms : List Entry) (pass : Pass) (f g : Function) → AreNatural f →
        SplitComes forms pass f (Ok g) → AreNatural g }
    ensures does { (forms : List Entry) (pass : Pass) (f g : Function) → MarksAreEmpty f →
        AreNatural f → SplitComes forms pass f (Ok g) → Keeps f g }
    ensures kept { (forms : List Entry) (f g : Function) → IsSound f →
        SplitComes forms Split1 f (Ok g) → PassKeeps f g }
{
    split_all(alloc, desc, f, pass)
}
