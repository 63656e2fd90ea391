//! A window replaced by a sequence.
ghost use Rattle.std.specs.Prelude.{◌≡◌, ◌<◌, ◌≤◌, ◌^◌, length, IfOk, IfErr, OnErr};
ghost use Rattle.rtl_chain.specs.Counts.{instruction_count};
ghost use Rattle.new_insns.specs.Replaced as windows;
ghost use Rattle.insn_replace.specs.machine.Compared as steps;
ghost use Rattle.pass_refusal.specs.md_forms.Forms.{names_of};
ghost use Rattle.pass_refusal.specs.form_needs.Needs as needs;
ghost use Rattle.pass_refusal.specs.equate.Side as sides;
ghost use Rattle.pass_refusal.specs.equate.Views.{side_of};
ghost use Rattle.window_comes.specs.Done.{Replaces};
ghost use Rattle.window_comes.specs.Window.{OneComes};
ghost use Rattle.window_comes.specs.machine.Compared as compared;

use live_chain::LiveChain;
use md_desc::Description;
use new_insns::insns_for;
use pass_refusal::{PassRefusal, Side, judge};
use plain_data::{Items, Memory};
use rtx_tree::{Insn, Insns, Kids, Limit, MOST_MADE};
use std::alloc::Global;

/// How many patterns a sequence has. More than 32 bits count find no memory.
fn length_of(sequence: &Kids) -> Result<u32, Memory>
    ensures { IfOk result (λ n. n ≡ length sequence.now) }
{
    if sequence.len() > u32::MAX as usize {
        return Err(Memory);
    }
    Ok(sequence.len() as u32)
}

/// The instructions that a sequence makes in the place of a window of a chain. Uids past 32 bits
/// find no memory.
fn insns_of(alloc: Global, chain: &mut LiveChain, end: u32, sequence: Kids) -> Result<Insns, Memory>
    requires some { 0 < end }
    requires within { end ≤ length chain.old.insns }
    ensures made { IfOk result (compared.AreMade chain.old end sequence) }
    ensures long { IfOk result (λ insns. length insns ≡ length sequence) }
    ensures same { chain.new ≡ chain.old }
{
    let Some(uid) = chain.greatest_uid().checked_add(1) else {
        return Err(Memory);
    };
    let last = chain.insn(end - 1);
    insns_for(alloc, last, uid, sequence)
}

/// Refuses a function that would be too long with others in the place of a window.
fn keep_few(
    alloc: Global,
    chain: &mut LiveChain,
    first: u32,
    end: u32,
    new: &[Insn],
) -> Result<(), PassRefusal>
    requires order { first < end }
    requires within { end ≤ length chain.old.insns }
    ensures few { steps.KeepsFew result
        (instruction_count (windows.replaced chain.old first end new.now).insns) }
    ensures same { chain.new ≡ chain.old }
{
    let count = chain.count_between(alloc, first, end, new)?;
    if count > MOST_MADE {
        return Err(PassRefusal::Limit {
            which: Limit::Instructions,
            count: count as u64,
        });
    }
    Ok(())
}

/// The instructions that a sequence makes in the place of a window of a chain, where the function
/// is not too long with them.
fn made(
    alloc: Global,
    chain: &mut LiveChain,
    first: u32,
    end: u32,
    sequence: Kids,
) -> Result<Insns, PassRefusal>
    requires order { first < end }
    requires within { end ≤ length chain.old.insns }
    ensures made { IfOk result (compared.AreMade chain.old end sequence) }
    ensures short { IfOk result (λ _. compared.IsShort chain.old first end sequence) }
    ensures refused { IfErr result (compared.RefusesLong chain.old first end sequence) }
    ensures long { IfOk result (λ insns. length insns ≡ length sequence) }
    ensures same { chain.new ≡ chain.old }
{
    let insns = insns_of(alloc, chain, end, sequence)?;
    keep_few(alloc, chain, first, end, insns.as_slice())?;
    Ok(insns)
}

/// The instructions of a side.
fn insns_in(alloc: Global, side: Side) -> Insns
    ensures { result ≡ steps.insns_in side }
{
    match side {
        Side::Insns { insns } => insns,
        Side::Lines { .. } => Items::new(alloc),
    }
}

/// Compares a window with the instructions of a side that would stand in its place by a form, over
/// the registers that are live behind it.
fn compare(
    alloc: Global,
    desc: &Description,
    form: u32,
    chain: &mut LiveChain,
    first: u32,
    end: u32,
    side: &Side,
) -> Result<(), PassRefusal>
    requires order { first < end }
    requires within { end ≤ length chain.old.insns }
    requires short { sides.side_length (side_of side.now) < 2 ^ 32 }
    ensures compares { compared.Compares result chain.old first end
        (needs.name_at (names_of desc.now) form) (side_of side.now) }
    ensures same { chain.new ≡ chain.old }
{
    let live = chain.live_after(alloc, end - 1)?;
    // with the gap at its end the window is lent
    chain.move_gap(end)?;
    let window = chain.window(alloc, first, end)?;
    let uid = chain.insn(first).uid;
    judge(alloc, desc, form, uid, window.as_slice(), side, &live)
}

/// Puts a sequence in the place of a window, that from place `first` up to place `end`, where it is
/// equated with it by a form over the registers that are live behind. Gives how many instructions
/// it has. Uids and counts past 32 bits find no memory.
///
/// # Errors
///
/// How many instructions the function would have, where that is more than 1,000,000. What the
/// comparison refuses: the first item in which they differ, with the uid of the window's first
/// instruction and the name of the form, or the size of a term that is too large. Or that memory
/// ran out. The function is as before then.
#[tactic(auto, using(crate::proofs::OneComes::one_comes))]
pub fn replace_window(
    alloc: Global,
    desc: &Description,
    form: u32,
    chain: &mut LiveChain,
    first: u32,
    end: u32,
    sequence: Kids,
) -> Result<u32, PassRefusal>
    requires order { first < end }
    requires within { end ≤ length chain.old.insns }
    ensures gives { Replaces result chain.old chain.new first end
        (needs.name_at (names_of desc.now) form) sequence }
    ensures kept { OnErr result (chain.new ≡ chain.old) }
    ensures one { OneComes }
{
    let count = length_of(&sequence)?;
    let insns = made(alloc, chain, first, end, sequence)?;
    let side = Side::Insns { insns };
    compare(alloc, desc, form, chain, first, end, &side)?;
    chain.replace(alloc, first, end, insns_in(alloc, side))?;
    Ok(count)
}
