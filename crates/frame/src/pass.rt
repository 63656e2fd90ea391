//! The pass over a function.
ghost use Rattle.std.specs.Prelude.{◌≡◌, ◌<◌, IfOk, List, MatchBool, Ok};
ghost use Rattle.rtx_tree.specs.declared.function.Function.{Function};
ghost use Rattle.rtl_chain.specs.Counts.{greatest_uid};
ghost use Rattle.md_desc.specs.Recog.{NoneMatches};
ghost use Rattle.md_forms.specs.declared.form.Entry.{Entry};
ghost use Rattle.form_needs.specs.Needs as needs;
ghost use Rattle.assign.specs.declared.places.Layout.{Layout};
ghost use Rattle.law_frame.specs.law_window_replaced.Natural.{RegistersAreNatural};
ghost use Rattle.law_frame.specs.Frame as spec;
ghost use Rattle.law_frame.specs.Keeps.{IsLaidOut, KeepsInFrame};
ghost use Rattle.law_pass_needs.specs.Left.{SameMarks};
ghost use Rattle.law_pass_needs.specs.Reloadable.{UidsDiffer};
ghost use Rattle.pass_refusal.specs.Outcome.{Gives};
ghost use Rattle.frame.specs.Framed as framed;
ghost use Rattle.frame.specs.Framed.{Answer, FrameComes};
ghost use Rattle.frame.specs.machine.Steps.{Finishes, TriesInsn, TriesAll};

use crate::insns::framed_insns;
use assign::Layout;
use form_needs::output_facts;
use md_desc::Description;
use pass_refusal::{PassRefusal, unmatched};
use plain_data::Memory;
use rtl_chain::{end_of, greatest_uid};
use rtx_tree::{Function, Insn, Limit, MOST_FRAME};
use std::alloc::Global;

fn too_large(layout: &Layout) -> PassRefusal
    ensures { result ≡ framed.too_large layout.now }
{
    PassRefusal::Limit {
        which: Limit::Frame,
        count: layout.size,
    }
}

/// The next uid of a chain. One past 32 bits finds no memory.
fn next_uid(insns: &[Insn]) -> Result<u32, Memory>
    ensures { IfOk result (λ uid. uid ≡ spec.next_uid insns.now) }
{
    match greatest_uid(insns).checked_add(1) {
        Some(uid) => Ok(uid),
        None => Err(Memory),
    }
}

/// The function with a return at the end of its chain where that is reached.
#[tactic(auto, using(crate::proofs::Finished::with_end, crate::proofs::Finished::without_end))]
fn finished(alloc: Global, f: Function) -> Result<Function, Memory>
    ensures { IfOk result (Finishes f) }
{
    let mut f = f;
    if let Some(end) = end_of(alloc, &f)? {
        f.insns.push(end)?;
    }
    Ok(f)
}

/// The function with a frame, where its chain is finished.
fn with_frame(alloc: Global, layout: &Layout, first: u32, f: Function) -> Result<Function, Memory>
    ensures { IfOk result (λ g. g ≡ spec.with_insns f
        (spec.framed_insns layout.now first f.insns)) }
{
    let Function {
        name,
        insns,
        locals,
        result: mode,
        result_reg,
    } = f;
    let insns = framed_insns(alloc, layout, first, insns)?;
    Ok(Function {
        name,
        insns,
        locals,
        result: mode,
        result_reg,
    })
}

/// Whether some form matches an instruction.
fn is_matched(alloc: Global, desc: &Description, insn: &Insn) -> Result<bool, Memory>
    ensures { IfOk result (λ b.
        MatchBool b (framed.IsMatched desc.now insn.now)
        (NoneMatches desc.now needs.output_facts insn.now.pattern)) }
{
    match desc.recog(alloc, &insn.pattern, &output_facts(alloc))? {
        Some(_) => Ok(true),
        None => Ok(false),
    }
}

/// Refuses an instruction that no form matches, where it has a uid from one on.
fn try_insn(alloc: Global, desc: &Description, first: u32, insn: &Insn) -> Result<(), PassRefusal>
    ensures { TriesInsn desc.now first insn.now result }
{
    if insn.uid < first {
        return Ok(());
    }
    if is_matched(alloc, desc, insn)? {
        return Ok(());
    }
    Err(unmatched(alloc, insn)?)
}

/// Refuses the first instruction with a uid from one on that no form matches.
fn try_all(alloc: Global, desc: &Description, first: u32, insns: &[Insn]) -> Result<(), PassRefusal>
    ensures { TriesAll desc.now first insns.now result }
{
    for insn in insns {
        try_insn(alloc, desc, first, insn)?;
    }
    Ok(())
}

/// The function with the frame of a layout. Uids past 32 bits find no memory.
///
/// # Errors
///
/// `Limit` of `Frame` where the frame is too large, before all else; `Unmatched` where no form
/// matches a new instruction, for the first; `Memory` where memory ran out.
#[tactic(auto, using(crate::proofs::One::frame_one, crate::proofs::Kept::frame_marks, crate::proofs::Kept::frame_uids))]
pub fn frame(
    alloc: Global,
    desc: &Description,
    f: Function,
    layout: &Layout,
) -> Result<Function, PassRefusal>
    // What is told is given; a refusal is the one that is told.
    ensures gives { Gives result (FrameComes desc.now f layout.now) }

    // A function comes to one thing.
    ensures one { (forms : List Entry) (f : Function) (layout : Layout) (a b : Answer) →
        FrameComes forms f layout a → FrameComes forms f layout b → a ≡ b }

    // In the frame of a layout in which all have a place of their own it does what the function
    // does in one that others
    // make and leave, and its caller finds sp, ra and s0 to s11 as they were.
    ensures keeps { (forms : List Entry) (f g : Function) (layout : Layout) →
        IsLaidOut f.locals layout → RegistersAreNatural f →
        FrameComes forms f layout (Ok g) → KeepsInFrame f layout g }

    // Labels and barriers stay, and uids that differ still do.
    ensures marks { (forms : List Entry) (f g : Function) (layout : Layout) →
        FrameComes forms f layout (Ok g) → SameMarks f g }
    ensures uids { (forms : List Entry) (f g : Function) (layout : Layout) → UidsDiffer f →
        FrameComes forms f layout (Ok g) → UidsDiffer g }
{
    if layout.size > MOST_FRAME {
        return Err(too_large(layout));
    }
    let first = next_uid(f.insns.as_slice())?;
    let whole = finished(alloc, f)?;
    let g = with_frame(alloc, layout, first, whole)?;
    try_all(alloc, desc, first, g.insns.as_slice())?;
    Ok(g)
}
