//! The form of a standard name.
ghost use Rattle.std.specs.Prelude.{◌≡◌, IfOk};
ghost use Rattle.md_pred.specs.Holds.{holds};
ghost use Rattle.md_recog.specs.Match as matching;
ghost use Rattle.form_needs.specs.Needs as needs;
ghost use Rattle.lower_insn.specs.Plan as spec;
ghost use Rattle.lower_insn.specs.machine.Forms.{is_met_at};

use crate::prepared::behind;
use form_needs::lower_facts;
use md_desc::Description;
use md_emit::named;
use md_forms::{Entry, Form};
use plain_data::Memory;
use rtx_tree::{Name, Operands, Rtx};
use std::alloc::Global;
use std_name::{Standard, StandardOperand};

/// Operands by their numbers.
#[tactic(auto, using(crate::proofs::Numbered::numbers_begin, crate::proofs::Numbered::numbers_go_on, crate::proofs::Numbered::numbers_end))]
pub(crate) fn numbered(alloc: Global, operands: &[StandardOperand]) -> Result<Operands, Memory>
    ensures { IfOk result (λ numbered. numbered ≡ spec.numbered operands.now) }
{
    let mut numbered = Operands::new(alloc);
    let mut number = 0;
    for operand in operands {
        let tree = operand.tree.copy(alloc)?;
        numbered.put(number, tree)?;
        number = behind(number)?;
    }
    Ok(numbered)
}

/// Whether the condition of a form holds with operands.
fn is_met(alloc: Global, desc: &Description, operands: &Operands, form: &Form) -> bool
    ensures { result ≡
        matching.is_met (holds desc.now) needs.lower_facts form.now.condition operands.now }
{
    let preds = desc.preds();
    let facts = lower_facts(alloc);
    md_recog::is_met(&form.condition, &facts, operands, preds)
}

fn is_met_by(alloc: Global, desc: &Description, operands: &Operands, entry: &Entry) -> bool
    ensures { result ≡ spec.is_met_by (holds desc.now) operands.now entry.now.form }
{
    match &entry.form {
        Ok(form) => is_met(alloc, desc, operands, form),
        Err(_) => false,
    }
}

/// Whether the condition of the form with an index holds with operands.
fn is_met_at(alloc: Global, desc: &Description, operands: &Operands, form: u32) -> bool
    ensures { result ≡ is_met_at desc.now operands.now form }
{
    match desc.forms().as_slice().get(form as usize) {
        Some(entry) => is_met_by(alloc, desc, operands, entry),
        None => false,
    }
}

/// The first form with a name whose condition holds with operands.
#[tactic(auto, using(crate::proofs::First::found_within, crate::proofs::First::first_here, crate::proofs::First::first_behind, crate::proofs::First::first_nowhere))]
fn first_form(
    alloc: Global,
    desc: &Description,
    name: &Name,
    operands: &Operands,
) -> Result<Option<u32>, Memory>
    ensures { IfOk result (λ form. form ≡ spec.first_form desc.now name.now operands.now) }
{
    let mut from = 0;
    while let Some(form) = named(desc, name, from) {
        if is_met_at(alloc, desc, operands, form) {
            return Ok(Some(form));
        }
        from = behind(form)?;
    }
    Ok(None)
}

/// The first form that has a standard name and whose condition holds with the instruction's own
/// operands.
pub(crate) fn form_for(
    alloc: Global,
    desc: &Description,
    standard: &Standard,
) -> Result<Option<u32>, Memory>
    ensures { IfOk result (λ form. form ≡ spec.form_for desc.now standard.now) }
{
    let operands = numbered(alloc, standard.operands.as_slice())?;
    first_form(alloc, desc, &standard.name, &operands)
}

fn patterns_by(entry: &Entry) -> &[Rtx]
    ensures { result.now ≡ spec.patterns_by entry.now.form }
{
    match &entry.form {
        Ok(form) => form.patterns.as_slice(),
        Err(_) => &[],
    }
}

/// The patterns of the form with an index.
pub(crate) fn patterns_at(desc: &Description, form: u32) -> &[Rtx]
    ensures { result.now ≡ spec.patterns_at desc.now form }
{
    match desc.forms().as_slice().get(form as usize) {
        Some(entry) => patterns_by(entry),
        None => &[],
    }
}
