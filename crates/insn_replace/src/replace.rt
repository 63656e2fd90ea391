//! An instruction replaced by a sequence.
ghost use Rattle.std.specs.Prelude.{◌≡◌, ◌<◌, ◌+◌, ◌^◌, length, slice_get, Some, IfOk, IfErr, OnErr};
ghost use Rattle.rtx_tree.specs.declared.function.Insn.{Insn};
ghost use Rattle.rtl_chain.specs.Counts.{instruction_count};
ghost use Rattle.new_insns.specs.Replaced as windows;
ghost use Rattle.pass_refusal.specs.md_forms.Forms.{names_of};
ghost use Rattle.pass_refusal.specs.form_needs.Needs as needs;
ghost use Rattle.pass_refusal.specs.equate.Side as sides;
ghost use Rattle.pass_refusal.specs.equate.Views.{side_of};
ghost use Rattle.insn_replace.specs.Done.{Replaces};
ghost use Rattle.insn_replace.specs.Replace.{OneReplaced};
ghost use Rattle.insn_replace.specs.machine.Compared as steps;

use live_chain::LiveChain;
use md_desc::Description;
use new_insns::insns_for;
use pass_refusal::{PassRefusal, Side, judge};
use plain_data::{Items, Memory};
use rtx_tree::{Insn, Insns, Kids, Limit, MOST_MADE};
use std::alloc::Global;
use std::slice;

/// How many patterns a sequence has. More than 32 bits count find no memory.
fn length_of(sequence: &Kids) -> Result<u32, Memory>
    ensures { IfOk result (λ n. n ≡ length sequence.now) }
{
    if sequence.len() > u32::MAX as usize {
        return Err(Memory);
    }
    Ok(sequence.len() as u32)
}

/// The place behind a place. One past 32 bits finds no memory.
fn behind(place: u32) -> Result<u32, Memory>
    ensures { IfOk result (λ end. end ≡ place + 1) }
{
    match place.checked_add(1) {
        Some(end) => Ok(end),
        None => Err(Memory),
    }
}

/// The instructions that a sequence makes in the place of one of a chain. Uids past 32 bits find no
/// memory.
fn insns_of(
    alloc: Global,
    chain: &mut LiveChain,
    place: u32,
    sequence: Kids,
) -> Result<Insns, Memory>
    requires { place < length chain.old.insns }
    ensures made { IfOk result (steps.AreMade chain.old place sequence) }
    ensures long { IfOk result (λ insns. length insns ≡ length sequence) }
    ensures same { chain.new ≡ chain.old }
{
    let Some(uid) = chain.greatest_uid().checked_add(1) else {
        return Err(Memory);
    };
    let old = chain.insn(place);
    insns_for(alloc, old, uid, sequence)
}

/// Refuses a function that would be too long with others in the place of the instruction at a
/// place.
fn keep_few(chain: &mut LiveChain, place: u32, new: &[Insn]) -> Result<(), PassRefusal>
    requires { place < length chain.old.insns }
    ensures few { steps.KeepsFew result
        (instruction_count (windows.replaced chain.old place (place + 1) new.now).insns) }
    ensures same { chain.new ≡ chain.old }
{
    let count = chain.count_with(place, new)?;
    if count > MOST_MADE {
        return Err(PassRefusal::Limit {
            which: Limit::Instructions,
            count: count as u64,
        });
    }
    Ok(())
}

/// The instructions that a sequence makes in the place of one of a chain, where the function is not
/// too long with them.
fn made(
    alloc: Global,
    chain: &mut LiveChain,
    place: u32,
    sequence: Kids,
) -> Result<Insns, PassRefusal>
    requires { place < length chain.old.insns }
    ensures made { IfOk result (steps.AreMade chain.old place sequence) }
    ensures short { IfOk result (λ _. steps.IsShort chain.old place sequence) }
    ensures refused { IfErr result (steps.RefusesLong chain.old place sequence) }
    ensures long { IfOk result (λ insns. length insns ≡ length sequence) }
    ensures same { chain.new ≡ chain.old }
{
    let insns = insns_of(alloc, chain, place, sequence)?;
    keep_few(chain, place, insns.as_slice())?;
    Ok(insns)
}

/// Compares the instruction at a place with what would stand in its place by a form, over the
/// registers that are live behind it.
fn compare(
    alloc: Global,
    desc: &Description,
    form: u32,
    chain: &mut LiveChain,
    place: u32,
    side: &Side,
) -> Result<(), PassRefusal>
    requires within { place < length chain.old.insns }
    requires short { sides.side_length (side_of side.now) < 2 ^ 32 }
    ensures compares { (i : Insn) → slice_get chain.old.insns place ≡ Some i →
        steps.Compares result chain.old place i (needs.name_at (names_of desc.now) form)
        (side_of side.now) }
    ensures same { chain.new ≡ chain.old }
{
    let live = chain.live_after(alloc, place)?;
    let insn = chain.insn(place);
    judge(
        alloc,
        desc,
        form,
        insn.uid,
        slice::from_ref(insn),
        side,
        &live,
    )
}

/// The instructions of a side.
fn insns_in(alloc: Global, side: Side) -> Insns
    ensures { result ≡ steps.insns_in side }
{
    match side {
        Side::Insns { insns } => insns,
        Side::Lines { .. } => Items::new(alloc),
    }
}

/// Puts a sequence in the place of the instruction at a place, where it is equated with it by a
/// form over the registers that are live behind. Gives how many instructions it has. Uids and
/// counts past 32 bits find no memory.
///
/// # Errors
///
/// How many instructions the function would have, where that is more than 1,000,000. What the
/// comparison refuses: the first item in which they differ, with the instruction's uid and the name
/// of the form, or the size of a term that is too large. Or that memory ran out. The function is as
/// before then.
#[tactic(auto, using(crate::proofs::OneReplaced::one_replaced))]
pub fn replace_insn(
    alloc: Global,
    desc: &Description,
    form: u32,
    chain: &mut LiveChain,
    place: u32,
    sequence: Kids,
) -> Result<u32, PassRefusal>
    requires { place < length chain.old.insns }
    ensures gives { Replaces result chain.old chain.new place
        (needs.name_at (names_of desc.now) form) sequence }
    ensures kept { OnErr result (chain.new ≡ chain.old) }
    ensures one { OneReplaced }
{
    let count = length_of(&sequence)?;
    let end = behind(place)?;
    let insns = made(alloc, chain, place, sequence)?;
    let side = Side::Insns { insns };
    compare(alloc, desc, form, chain, place, &side)?;
    chain.replace(alloc, place, end, insns_in(alloc, side))?;
    Ok(count)
}
