//! What an instruction is lowered to.
ghost use Rattle.std.specs.Prelude.{◌≡◌, ◌+◌, ℕ, List, IfOk};
ghost use Rattle.md_forms.specs.declared.form.Entry.{Entry};
ghost use Rattle.pass_refusal.specs.Outcome.{Gives};
ghost use Rattle.rtx_tree.specs.declared.function.Insn.{Insn};
ghost use Rattle.lower_insn.specs.Lowered as spec;
ghost use Rattle.lower_insn.specs.machine.Work.{LowersBy, LowersUnmatched, Stays};

use crate::emit::is_matched;
use crate::part::{Lowered, Plan, Uids};
use crate::plan::planned;
use crate::work::make_planned;
use form_needs::needs_form;
use md_desc::Description;
use pass_refusal::{PassRefusal, unmatched};
use plain_data::Memory;
use rtx_tree::Insn;
use std::alloc::Global;

/// The uids of the instructions in the place of one, in a function that has a greatest uid. A uid
/// past 32 bits finds no memory.
fn uids_for(insn: &Insn, greatest: u32) -> Result<Uids, Memory>
    ensures { IfOk result (λ uids. uids ≡ spec.uids_for insn.now greatest) }
{
    match greatest.checked_add(1) {
        Some(first) => Ok(Uids {
            own: insn.uid,
            first,
        }),
        None => Err(Memory),
    }
}

/// Makes an instruction by its plan.
fn lower_by(
    alloc: Global,
    desc: &Description,
    insn: &Insn,
    greatest: u32,
    plan: Plan,
) -> Result<Lowered, PassRefusal>
    ensures { LowersBy desc.now insn.now greatest plan result }
{
    let form = plan.form;
    let uids = uids_for(insn, greatest)?;
    let tree = insn.pattern.copy(alloc)?;
    let sequence = make_planned(alloc, desc, uids, tree, plan)?;
    Ok(Lowered { form, sequence })
}

/// What an instruction that needs a form, of which none matches, is lowered to.
fn lower_unmatched(
    alloc: Global,
    desc: &Description,
    insn: &Insn,
    greatest: u32,
    next: u32,
) -> Result<Lowered, PassRefusal>
    ensures { LowersUnmatched desc.now insn.now greatest next result }
{
    match planned(alloc, desc, false, &insn.pattern, next)? {
        Some(plan) => lower_by(alloc, desc, insn, greatest, plan),
        None => Err(unmatched(alloc, insn)?),
    }
}

/// Whether an instruction stays: a form matches it, or it needs none.
fn stays(alloc: Global, desc: &Description, insn: &Insn) -> Result<bool, Memory>
    ensures { IfOk result (Stays desc.now insn.now) }
{
    if !needs_form(insn) {
        return Ok(true);
    }
    Ok(is_matched(alloc, desc, &insn.pattern)?)
}

/// What an instruction is lowered to by a form, or `None` exactly where it stays.
fn lower(
    alloc: Global,
    desc: &Description,
    insn: &Insn,
    greatest: u32,
    next: u32,
) -> Result<Option<Lowered>, PassRefusal>
    ensures { Gives result (spec.InsnLowers desc.now insn.now greatest next) }
{
    if stays(alloc, desc, insn)? {
        return Ok(None);
    }
    Ok(Some(lower_unmatched(alloc, desc, insn, greatest, next)?))
}

/// What an instruction is lowered to by a form, or `None` exactly where it stays: a form matches
/// it, or it needs none. The function in which it stands has a greatest uid, and pseudo registers
/// that are free from a number on.
///
/// # Errors
///
/// `Unmatched` for the first of the instruction and of what would stand in its place of which no
/// form can be made, with the uid that it would have; `Memory` where memory ran out.
pub fn lowered(
    alloc: Global,
    desc: &Description,
    insn: &Insn,
    greatest_uid: u32,
    next_pseudo: u32,
) -> Result<Option<Lowered>, PassRefusal>
    ensures gives { Gives result (spec.InsnLowers desc.now insn.now greatest_uid next_pseudo) }
    ensures one { (forms : List Entry) (i : Insn) (greatest next : ℕ) (a b : spec.InsnAnswer) →
        spec.InsnLowers forms i greatest next a → spec.InsnLowers forms i greatest next b → a ≡ b }
{
    lower(alloc, desc, insn, greatest_uid, next_pseudo)
}
