//! The first form that splits an instruction.
ghost use Rattle.std.specs.Prelude.{◌≡◌, IfOk, None, Some};
ghost use Rattle.split.specs.declared.form.FormSplit.{FormSplit};
ghost use Rattle.split.specs.Split as spec;
ghost use Rattle.split.specs.Split.{IsSplit, IsUnsplit};

use crate::homes::{facts_of, is_admitted};
use c_eval::Facts;
use form_needs::is_kind;
use gen_emit::Emission;
use md_desc::Description;
use md_emit::{emit, split_of};
use md_recog::FormMatch;
use pass_name::Pass;
use plain_data::Memory;
use rtx_tree::{Insn, Kids};
use std::alloc::Global;

/// A form that splits an instruction, with what stands in its place.
#[derive(Drop)]
pub struct FormSplit {
    /// The index of the form.
    pub form: u32,
    /// The patterns.
    pub sequence: Kids,
}

fn admitted(pass: Pass, emission: Emission) -> Option<Kids>
    ensures { result ≡ spec.admitted pass emission }
{
    if is_admitted(pass, emission.sequence.as_slice()) {
        Some(emission.sequence)
    } else {
        None
    }
}

/// What a form that matches an instruction puts in its place, or nothing where it fails.
fn given_by(
    alloc: Global,
    desc: &Description,
    pass: Pass,
    facts: &Facts,
    next: u32,
    found: FormMatch,
) -> Result<Option<Kids>, Memory>
    requires { facts.now ≡ spec.facts_of pass }
    ensures { IfOk result (λ r. r ≡ spec.given_by desc.now pass next found.form found.operands) }
{
    match emit(alloc, desc, found.form, facts, found.operands, next)? {
        Some(emission) => Ok(admitted(pass, emission)),
        None => Ok(None),
    }
}

/// The first form that splits an instruction, where new pseudo registers are numbered from one on,
/// or `None` where there is none.
pub fn first_split(
    alloc: Global,
    desc: &Description,
    pass: Pass,
    next: u32,
    insn: &Insn,
) -> Result<Option<FormSplit>, Memory>
    ensures some { IfOk result (λ r. (s : FormSplit) → r ≡ Some s →
        IsSplit desc.now pass next insn.now s.form s.sequence) }
    ensures none { IfOk result (λ r. r ≡ None → IsUnsplit desc.now pass next insn.now) }
{
    if !is_kind(insn.kind) {
        return Ok(None);
    }
    let end = desc.forms().len() as u32;
    let facts = facts_of(alloc, pass);
    let mut from = 0;
    while from < end {
        let Some(found) = split_of(alloc, desc, &insn.pattern, &facts, from)? else {
            return Ok(None);
        };
        let form = found.form;
        if let Some(sequence) = given_by(alloc, desc, pass, &facts, next, found)? {
            return Ok(Some(FormSplit { form, sequence }));
        }
        from = form + 1;
    }
    Ok(None)
}
