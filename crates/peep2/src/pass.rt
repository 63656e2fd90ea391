//! The pass over a function.
ghost use Rattle.std.specs.Prelude.{◌≡◌, ◌+◌, ◌<◌, IfOk, List, Ok, length};
ghost use Rattle.rtx_tree.specs.declared.function.Function.{Function};
ghost use Rattle.md_forms.specs.declared.form.Entry.{Entry};
ghost use Rattle.pass_refusal.specs.Outcome.{Gives};
ghost use Rattle.law_function_kept.specs.Keeps.{Keeps};
ghost use Rattle.law_insn_replaced.specs.law_pass_needs.Left.{SameMarks};
ghost use Rattle.law_insn_replaced.specs.law_pass_needs.Reloadable.{UidsDiffer};
ghost use Rattle.law_insn_replaced.specs.law_window_lines.ForLines.{MarksAreEmpty};
ghost use Rattle.law_window_replaced.specs.Natural.{RegistersAreNatural};
ghost use Rattle.peep2.specs.Cover.{Answer, CoverComes};
ghost use Rattle.peep2.specs.machine.Steps.{IsFound, PlaceCovers};

use crate::form::{Rewrite, first_rewrite};
use live_chain::LiveChain;
use md_desc::Description;
use pass_refusal::PassRefusal;
use plain_data::Memory;
use rtx_tree::Function;
use std::alloc::Global;
use window_comes::replace_window;

/// The place so many behind another. One past 32 bits finds no memory.
fn behind(place: u32, count: u32) -> Result<u32, Memory>
    ensures { IfOk result (λ end. end ≡ place + count) }
{
    match place.checked_add(count) {
        Some(end) => Ok(end),
        None => Err(Memory),
    }
}

/// Puts a sequence in the place of the window that is rewritten to it. Gives the place behind.
fn put_rewrite(
    alloc: Global,
    desc: &Description,
    chain: &mut LiveChain,
    place: u32,
    found: Rewrite,
) -> Result<u32, PassRefusal>
    requires { IsFound desc.now chain.old place found }
    ensures { PlaceCovers desc.now chain.old place chain.new result }
{
    let Rewrite {
        form,
        end,
        sequence,
        ..
    } = found;
    let count = replace_window(alloc, desc, form, chain, place, end, sequence)?;
    Ok(behind(place, count)?)
}

/// Rewrites the window at a place, if a form does. Gives the place behind what stands there then.
fn cover_place(
    alloc: Global,
    desc: &Description,
    chain: &mut LiveChain,
    place: u32,
) -> Result<u32, PassRefusal>
    requires { place < length chain.old.insns }
    ensures { PlaceCovers desc.now chain.old place chain.new result }
{
    match first_rewrite(alloc, desc, chain, place)? {
        Some(found) => put_rewrite(alloc, desc, chain, place, found),
        None => Ok(behind(place, 1)?),
    }
}

/// Rewrites the windows of a function, one place behind the other.
fn cover(alloc: Global, desc: &Description, f: Function) -> Result<Function, PassRefusal>
    ensures { Gives result (CoverComes desc.now f) }
{
    let mut chain = LiveChain::of(alloc, f);
    let mut place: u32 = 0;
    while (place as usize) < chain.len() {
        place = cover_place(alloc, desc, &mut chain, place)?;
    }
    Ok(chain.into_function(alloc)?)
}

/// The function with windows of its instructions rewritten by the forms of the description: from the
/// beginning on, at each place by the first that does, behind what was put there. Uids and places
/// past 32 bits find no memory.
///
/// # Errors
///
/// `Limit` of `Instructions` where the function would be too long; `NotEquated`, or `Limit` of
/// `TermSize`, where a sequence is not equated with the window in whose place it would stand;
/// `Memory` where memory ran out.
pub fn peep2(alloc: Global, desc: &Description, f: Function) -> Result<Function, PassRefusal>
    ensures gives { Gives result (CoverComes desc.now f) }
    ensures one { (forms : List Entry) (f : Function) (a b : Answer) → CoverComes forms f a →
        CoverComes forms f b → a ≡ b }
    ensures marks { (forms : List Entry) (f g : Function) → CoverComes forms f (Ok g) →
        SameMarks f g }
    ensures uids { (forms : List Entry) (f g : Function) → UidsDiffer f →
        CoverComes forms f (Ok g) → UidsDiffer g }
    ensures does { (forms : List Entry) (f g : Function) → MarksAreEmpty f →
        RegistersAreNatural f → CoverComes forms f (Ok g) → Keeps f g }
{
    cover(alloc, desc, f)
}
