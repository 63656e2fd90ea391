//! The causes of a description.
ghost use Rattle.std.specs.Prelude.{◌≡◌, IfOk, map};
ghost use Rattle.md_forms.specs.Forms.{draft_entry};
ghost use Rattle.md_forms.specs.Reasons.{tables_in};
ghost use Rattle.lint_aside.specs.Causes as spec;

use crate::cause::{Aside, Cause};
use crate::others::{about_of, draft_of};
use crate::sake::Sakes;
use md_forms::{Entry, Form, Judged, Reason};
use md_iter::Instance;
use md_tables::{DraftEntry, Tables, tables_of};
use name_places::Constants;
use plain_data::{Items, Memory};
use std::alloc::Global;

/// Causes, in the order of the forms.
pub type Causes = Items<Cause>;

/// What the own text of each form says.
fn drafts_of(
    alloc: Global,
    constants: &Constants,
    forms: &[Instance],
) -> Result<Items<DraftEntry>, Memory>
    ensures { IfOk result (λ drafts. drafts ≡ map (draft_entry constants.now) forms.now) }
{
    let mut drafts = Items::new(alloc);
    for form in forms {
        drafts.push(draft_of(alloc, constants, form)?)?;
    }
    Ok(drafts)
}

/// What the forms of a description define.
fn tables_in(alloc: Global, constants: &Constants, forms: &[Instance]) -> Result<Tables, Memory>
    ensures { IfOk result (λ tables. tables ≡ tables_in constants.now forms.now) }
{
    let drafts = drafts_of(alloc, constants, forms)?;
    tables_of(alloc, drafts.as_slice())
}

// ---- each form that is set aside

/// The reason of a form, if it is set aside.
fn reason_in(form: &Judged<Form>) -> Option<Reason>
    ensures { result ≡ spec.reason_in form.now }
{
    match form {
        Ok(_) => None,
        Err(reason) => Some(*reason),
    }
}

/// A form that is set aside. More forms than 32 bits count find no memory.
fn aside_by(
    alloc: Global,
    constants: &Constants,
    tables: &Tables,
    at: usize,
    form: &Instance,
    reason: Reason,
) -> Result<Aside, Memory>
    ensures { IfOk result (λ aside.
        aside ≡ spec.aside_by constants.now tables.now at form.now reason) }
{
    let Ok(index) = u32::try_from(at) else {
        return Err(Memory);
    };
    let about = about_of(alloc, constants, tables, form, reason)?;
    Ok(Aside {
        form: index,
        reason,
        about,
    })
}

/// The form at a place, if it is set aside.
fn aside_at(
    alloc: Global,
    constants: &Constants,
    tables: &Tables,
    instances: &[Instance],
    at: usize,
    entry: &Entry,
) -> Result<Option<Aside>, Memory>
    ensures { IfOk result (λ aside.
        aside ≡ spec.aside_at constants.now tables.now instances.now (at, entry.now)) }
{
    match (instances.get(at), reason_in(&entry.form)) {
        (Some(form), Some(reason)) => {
            Ok(Some(aside_by(alloc, constants, tables, at, form, reason)?))
        }
        _ => Ok(None),
    }
}

/// The forms that are set aside, in order.
#[tactic(auto, using(crate::proofs::PlacedLaws::found_next, crate::proofs::PlacedLaws::found_none, crate::proofs::PlacedLaws::found_all), unfolding(crate::specs::Causes::all_aside))]
fn all_aside(
    alloc: Global,
    constants: &Constants,
    tables: &Tables,
    instances: &[Instance],
    forms: &[Entry],
) -> Result<Items<Aside>, Memory>
    ensures { IfOk result (λ all.
        all ≡ spec.all_aside constants.now tables.now instances.now forms.now) }
{
    let mut all = Items::new(alloc);
    for (at, entry) in forms.iter().enumerate() {
        if let Some(aside) = aside_at(alloc, constants, tables, instances, at, entry)? {
            all.push(aside)?;
        }
    }
    Ok(all)
}

// ---- the causes

/// The cause of the form at a place, with the others that are set aside for its sake.
fn cause_at(
    alloc: Global,
    sakes: &Sakes,
    all: &[Aside],
    at: usize,
    aside: &Aside,
) -> Result<Cause, Memory>
    ensures { IfOk result (λ cause. cause ≡ spec.cause_at sakes.now all.now (at, aside.now)) }
{
    let others = sakes.others(alloc, all, at)?;
    aside.cause(alloc, others)
}

/// Each with the forms that are set aside for its sake.
#[tactic(auto, using(crate::proofs::PlacedLaws::mapped_next, crate::proofs::PlacedLaws::mapped_all))]
fn causes_by(alloc: Global, sakes: &Sakes, all: &[Aside]) -> Result<Causes, Memory>
    ensures { IfOk result (λ causes. causes ≡ spec.causes_by sakes.now all.now) }
{
    let mut causes = Items::new(alloc);
    for (at, aside) in all.iter().enumerate() {
        causes.push(cause_at(alloc, sakes, all, at, aside)?)?;
    }
    Ok(causes)
}

/// What the forms of a description that are set aside are set aside for, in order, by the forms as
/// they are written and as they are taken.
pub fn causes_of(
    alloc: Global,
    constants: &Constants,
    instances: &[Instance],
    forms: &[Entry],
) -> Result<Causes, Memory>
    ensures { IfOk result (λ causes.
        causes ≡ spec.causes_of constants.now instances.now forms.now) }
{
    let tables = tables_in(alloc, constants, instances)?;
    let all = all_aside(alloc, constants, &tables, instances, forms)?;
    let sakes = Sakes::of(alloc, forms, all.as_slice())?;
    causes_by(alloc, &sakes, all.as_slice())
}
