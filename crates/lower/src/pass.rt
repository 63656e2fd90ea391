//! The pass over a function.
ghost use Rattle.std.specs.Prelude.{◌≡◌, ◌+◌, ◌<◌, IfOk, List, Ok, Some, length, slice_get};
ghost use Rattle.rtx_tree.specs.declared.function.Function.{Function};
ghost use Rattle.rtx_tree.specs.declared.function.Insn.{Insn};
ghost use Rattle.rtl_chain.specs.Counts as counts;
ghost use Rattle.md_forms.specs.declared.form.Entry.{Entry};
ghost use Rattle.pass_refusal.specs.Outcome.{Gives};
ghost use Rattle.law_lowering.specs.law_insn_replaced.Sound.{IsSound, PassKeeps};
ghost use Rattle.law_lowering.specs.law_pass_needs.Left.{SameMarks};
ghost use Rattle.lower.specs.Lower.{Answer, AreMatched, LowerComes, LowersIn};
ghost use Rattle.lower.specs.machine.Steps.{PlaceLowers};

use insn_replace::replace_insn;
use live_chain::LiveChain;
use lower_insn::Lowered;
use md_desc::Description;
use pass_refusal::PassRefusal;
use plain_data::Memory;
use rtx_tree::Function;
use std::alloc::Global;

/// The number of the next free pseudo register. One past 32 bits finds no memory.
fn next_pseudo(chain: &mut LiveChain) -> Result<u32, Memory>
    ensures next { IfOk result (λ next. next ≡ counts.next_pseudo chain.old.insns) }
    ensures same { chain.new ≡ chain.old }
{
    let next = chain.next_pseudo();
    if next > u64::from(u32::MAX) {
        return Err(Memory);
    }
    Ok(next as u32)
}

/// The place so many behind another. One past 32 bits finds no memory.
fn behind(place: u32, count: u32) -> Result<u32, Memory>
    ensures { IfOk result (λ end. end ≡ place + count) }
{
    match place.checked_add(count) {
        Some(end) => Ok(end),
        None => Err(Memory),
    }
}

/// Puts a sequence in the place of the instruction that is lowered to it. Gives the place behind.
fn put_lowered(
    alloc: Global,
    desc: &Description,
    chain: &mut LiveChain,
    place: u32,
    made: Lowered,
) -> Result<u32, PassRefusal>
    requires within { place < length chain.old.insns }
    requires lowers { (i : Insn) → slice_get chain.old.insns place ≡ Some i →
        LowersIn desc.now chain.old i (Ok (Some made)) }
    ensures { PlaceLowers desc.now chain.old place chain.new result }
{
    let Lowered { form, sequence } = made;
    let count = replace_insn(alloc, desc, form, chain, place, sequence)?;
    Ok(behind(place, count)?)
}

/// Lowers the instruction at a place. Gives the place behind what stands there then.
fn lower_place(
    alloc: Global,
    desc: &Description,
    chain: &mut LiveChain,
    place: u32,
) -> Result<u32, PassRefusal>
    requires { place < length chain.old.insns }
    ensures { PlaceLowers desc.now chain.old place chain.new result }
{
    let next = next_pseudo(chain)?;
    let greatest = chain.greatest_uid();
    let insn = chain.insn(place);
    match lower_insn::lowered(alloc, desc, insn, greatest, next)? {
        Some(made) => put_lowered(alloc, desc, chain, place, made),
        None => Ok(behind(place, 1)?),
    }
}

/// The function with each instruction as forms of the description match it. What no form matches is
/// made by the form of its standard name, and stands in the instruction's place where it is equated
/// with it. Uids, pseudo registers and places past 32 bits find no memory.
///
/// # Errors
///
/// `Unmatched` where no form can make an instruction; `Limit` of `Instructions` where the function
/// would be too long; `NotEquated`, or `Limit` of `TermSize`, where what would stand in an
/// instruction's place is not equated with it; `Memory` where memory ran out.
#[tactic(auto, using(crate::proofs::OneLower::lower_one, crate::proofs::Matched::lower_matched, crate::proofs::Kept::lower_same, crate::proofs::Kept::lower_kept))]
pub fn lower(alloc: Global, desc: &Description, f: Function) -> Result<Function, PassRefusal>
    ensures gives { Gives result (LowerComes desc.now f) }
    ensures one { (forms : List Entry) (f : Function) (a b : Answer) → LowerComes forms f a →
        LowerComes forms f b → a ≡ b }
    ensures matched { (forms : List Entry) (f g : Function) → LowerComes forms f (Ok g) →
        AreMatched forms g }
    ensures marks { (forms : List Entry) (f g : Function) → LowerComes forms f (Ok g) →
        SameMarks f g }
    ensures kept { (forms : List Entry) (f g : Function) → IsSound f → LowerComes forms f (Ok g) →
        PassKeeps f g }
{
    let mut chain = LiveChain::of(alloc, f);
    let mut place: u32 = 0;
    while (place as usize) < chain.len() {
        place = lower_place(alloc, desc, &mut chain, place)?;
    }
    Ok(chain.into_function(alloc)?)
}
