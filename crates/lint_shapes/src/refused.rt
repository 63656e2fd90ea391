//! What is refused of the functions that are tried.
ghost use Rattle.std.specs.Prelude.{◌≡◌, [], IfOk, OnOk};
ghost use Rattle.lint_shapes.specs.Refused as spec;
ghost use Rattle.lint_shapes.specs.Refused.{Comes, FirstRefused, AreTold, AreRefused};
ghost use Rattle.lint_shapes.specs.machine.Steps as steps;
ghost use Rattle.lint_shapes.specs.machine.Steps.{GroupTold};

use func_text::assembled;
use lint_groups::{Group, Try, groups_of, tries_of};
use lint_refused::{Refused, Site, push_told, told_at};
use lint_tried::tested_numbers;
use md_desc::Description;
use pass_name::Road;
use plain_data::{Items, Memory};
use rtx_tree::Name;
use run_refusal::Refusal;
use std::alloc::Global;
use std::slice;

// ---- what comes of a function

fn is_memory(refusal: &Refusal) -> bool
    ensures { result ≡ steps.is_memory refusal.now }
{
    matches!(refusal, Refusal::Memory)
}

/// Where the refusal of a function of a group is told.
fn site_of(group: Group) -> Site
    ensures { result ≡ spec.site_of group }
{
    match group {
        Group::Split { form } => Site::Split { form },
        Group::Peephole { form } => Site::Peephole { form },
        Group::Shape(_) | Group::Kept { .. } => Site::Description,
    }
}

/// What is told of a function of a group, for its refusal.
#[tactic(auto, unfolding(crate::specs::Refused::told_if))]
fn told_if(
    alloc: Global,
    group: Group,
    what: &Name,
    refusal: &Refusal,
) -> Result<Option<Refused>, Memory>
    ensures { IfOk result (λ r. r ≡ spec.told_if group what.now refusal.now) }
{
    told_at(alloc, site_of(group), what, refusal)
}

/// Whether a function is refused, and what is told of it.
#[tactic(auto, using(crate::proofs::RefusedLaws::has_assembly, crate::proofs::RefusedLaws::is_refused))]
fn comes(
    alloc: Global,
    description: &Description,
    group: Group,
    tried: &Try,
) -> Result<Option<Refused>, Memory>
    ensures { IfOk result (Comes description.now group tried.now) }
{
    let functions = slice::from_ref(&tried.function);
    match assembled(alloc, description, Road::Usual, functions) {
        Ok(_) => Ok(None),
        Err(refusal) => {
            if is_memory(&refusal) {
                return Err(Memory);
            }
            let refused = told_if(alloc, group, &tried.what, &refusal)?;
            Ok(refused)
        }
    }
}

/// The first of some functions that is refused.
#[tactic(auto, using(crate::proofs::FirstLaws::goes_on, crate::proofs::FirstLaws::is_first, crate::proofs::FirstLaws::none_left))]
fn first_refused(
    alloc: Global,
    description: &Description,
    group: Group,
    tries: &[Try],
) -> Result<Option<Refused>, Memory>
    ensures { IfOk result (FirstRefused description.now group tries.now) }
{
    for at in 0..tries.len() {
        let refused = comes(alloc, description, group, &tries[at])?;
        if refused.is_some() {
            return Ok(refused);
        }
    }
    Ok(None)
}

// ---- what is told

/// Appends what is told of a group.
fn push_group(
    alloc: Global,
    description: &Description,
    tested: &[i64],
    group: Group,
    told: &mut Items<Refused>,
) -> Result<(), Memory>
    ensures { OnOk result (GroupTold description.now tested.now group told.old told.new) }
{
    let tries = tries_of(alloc, description, tested, group)?;
    let first = first_refused(alloc, description, group, tries.as_slice())?;
    push_told(first, told)?;
    Ok(())
}

/// What is told of some groups.
#[tactic(auto, using(crate::proofs::FirstLaws::all_told))]
fn told_among(
    alloc: Global,
    description: &Description,
    tested: &[i64],
    groups: &[Group],
) -> Result<Items<Refused>, Memory>
    ensures { IfOk result (AreTold description.now tested.now groups.now []) }
{
    let mut told = Items::new(alloc);
    for group in groups {
        push_group(alloc, description, tested, *group, &mut told)?;
    }
    Ok(told)
}

/// What a description refuses of the functions that are tried.
pub fn refused_of(alloc: Global, description: &Description) -> Result<Items<Refused>, Memory>
    ensures { IfOk result (AreRefused description.now) }
{
    let forms = description.forms().as_slice();
    let tested = tested_numbers(alloc, forms)?;
    let groups = groups_of(alloc, forms)?;
    told_among(alloc, description, tested.as_slice(), groups.as_slice())
}
