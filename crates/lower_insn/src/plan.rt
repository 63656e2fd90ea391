//! How an instruction is made by the form of its standard name.
ghost use Rattle.std.specs.Prelude.{◌≡◌, option_map, option_and_then, IfOk};
ghost use Rattle.md_pred.specs.Holds.{holds};
ghost use Rattle.lower_insn.specs.Plan as spec;

use crate::address::addressed;
use crate::comparison::with_comparisons;
use crate::fit::fitted;
use crate::form::{form_for, numbered, patterns_at};
use crate::part::{Plan, Prepared};
use md_desc::Description;
use plain_data::Memory;
use rtx_tree::{Name, Rtx};
use std::alloc::Global;
use std_name::{Standard, StandardOperand, standard_of};

fn is_move(name: &Name) -> bool
    ensures { result ≡ spec.is_move name.now }
{
    name.bytes().starts_with(b"mov")
}

fn behind_addresses(a: Prepared, b: Prepared) -> Result<Prepared, Memory>
    ensures { IfOk result (λ all. all ≡ spec.behind_addresses a b) }
{
    Ok(Prepared {
        before: a.before.append(b.before)?,
        operands: b.operands,
        after: b.after,
        next: b.next,
    })
}

/// The operands as a form's patterns ask for them, but comparisons.
fn prepare_values(
    alloc: Global,
    desc: &Description,
    patterns: &[Rtx],
    held: bool,
    operands: &[StandardOperand],
    next: u32,
) -> Result<Option<Prepared>, Memory>
    ensures { IfOk result (λ all. all ≡ spec.values_for
        (holds desc.now) patterns.now held operands.now next) }
{
    let a = addressed(alloc, operands, next)?;
    match fitted(alloc, desc, patterns, held, a.operands.as_slice(), a.next)? {
        Some(b) => Ok(Some(behind_addresses(a, b)?)),
        None => Ok(None),
    }
}

/// The operands as a form's patterns ask for them.
fn prepare(
    alloc: Global,
    desc: &Description,
    patterns: &[Rtx],
    held: bool,
    operands: &[StandardOperand],
    next: u32,
) -> Result<Option<Prepared>, Memory>
    ensures { IfOk result (λ all. all ≡ spec.prepared_for
        (holds desc.now) patterns.now held operands.now next) }
{
    match prepare_values(alloc, desc, patterns, held, operands, next)? {
        Some(values) => with_comparisons(alloc, desc, patterns, values),
        None => Ok(None),
    }
}

fn planned_with(alloc: Global, form: u32, prepared: Prepared) -> Result<Plan, Memory>
    ensures { IfOk result (λ plan. plan ≡ spec.plan form prepared) }
{
    Ok(Plan {
        form,
        operands: numbered(alloc, prepared.operands.as_slice())?,
        before: prepared.before,
        after: prepared.after,
        next: prepared.next,
    })
}

fn plan_by(
    alloc: Global,
    desc: &Description,
    made: bool,
    standard: &Standard,
    next: u32,
    form: u32,
) -> Result<Option<Plan>, Memory>
    ensures { IfOk result (λ plan. plan ≡ spec.planned_by desc.now made standard.now next form) }
{
    let held = made && is_move(&standard.name);
    let patterns = patterns_at(desc, form);
    match prepare(
        alloc,
        desc,
        patterns,
        held,
        standard.operands.as_slice(),
        next,
    )? {
        Some(prepared) => Ok(Some(planned_with(alloc, form, prepared)?)),
        None => Ok(None),
    }
}

fn plan_as(
    alloc: Global,
    desc: &Description,
    made: bool,
    next: u32,
    standard: &Standard,
) -> Result<Option<Plan>, Memory>
    ensures { IfOk result (λ plan. plan ≡ spec.planned_as desc.now made next standard.now) }
{
    match form_for(alloc, desc, standard)? {
        Some(form) => plan_by(alloc, desc, made, standard, next, form),
        None => Ok(None),
    }
}

/// How a pattern is made, which lowering itself may have made, or `None` exactly where there is no
/// way.
pub(crate) fn planned(
    alloc: Global,
    desc: &Description,
    made: bool,
    x: &Rtx,
    next: u32,
) -> Result<Option<Plan>, Memory>
    ensures { IfOk result (λ plan. plan ≡ spec.planned desc.now made x.now next) }
{
    match standard_of(alloc, x)? {
        Some(standard) => plan_as(alloc, desc, made, next, &standard),
        None => Ok(None),
    }
}
