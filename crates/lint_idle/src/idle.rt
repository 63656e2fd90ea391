//! The members of constraints that are idle.
ghost use Rattle.std.specs.Prelude.{◌≡◌, ◌++◌, IfOk, OnOk, flat_map};
ghost use Rattle.std.specs.Fmt.{decimal};
ghost use Rattle.lint_idle.specs.Idle as spec;

use crate::admits::member_admits;
use lint_tried::{Instance, accepted_form, instances_tried};
use md_desc::Description;
use md_forms::{Form, OperandConstraint};
use md_text::{Letter, Member};
use plain_data::{Items, Memory};
use rtx_tree::Name;
use std::alloc::Global;
use text_words::print_count;

/// A member of a constraint that admits nothing of what is tried.
#[derive(Drop)]
pub struct Idle {
    /// The operand's number.
    pub operand: u32,
    /// The member, as it is written.
    pub member: Name,
}

// ---- a member as it is written

fn letter_text(letter: Letter) -> &'static [u8]
    ensures { result.now ≡ spec.letter_text letter }
{
    match letter {
        Letter::Register => b"r",
        Letter::Memory => b"m",
        Letter::Immediate => b"i",
        Letter::Constant => b"n",
        Letter::Symbol => b"s",
        Letter::General => b"g",
        Letter::Anything => b"X",
        Letter::Address => b"p",
    }
}

fn digit_text(alloc: Global, number: u32) -> Result<Name, Memory>
    ensures { IfOk result (λ text. text ≡ decimal number) }
{
    let mut text = Vec::new(alloc);
    print_count(u64::from(number), &mut text)?;
    Ok(Name::from_vec(text))
}

fn text_of(alloc: Global, member: &Member) -> Result<Name, Memory>
    ensures { IfOk result (λ text. text ≡ spec.text_of member.now) }
{
    match member {
        Member::Letter(letter) => Name::of(alloc, letter_text(*letter)),
        Member::Same(number) => digit_text(alloc, u32::from(*number)),
        Member::Defined(name) => name.copy(alloc),
    }
}

// ---- whether it admits something

/// Whether a member of an operand's constraint admits it in an instance.
fn admits_in(
    alloc: Global,
    description: &Description,
    operand: u32,
    member: &Member,
    instance: &Instance,
) -> Result<bool, Memory>
    ensures { IfOk result (λ admits.
        admits ≡ spec.admits_in description.now operand member.now instance.now) }
{
    match instance.operands.get(operand as usize) {
        Some(x) => member_admits(alloc, description, &instance.operands, x, member),
        None => Ok(false),
    }
}

/// Whether a member admits an operand in none of some instances.
fn is_idle(
    alloc: Global,
    description: &Description,
    tried: &[Instance],
    operand: u32,
    member: &Member,
) -> Result<bool, Memory>
    ensures { IfOk result (λ idle.
        idle ≡ spec.is_idle description.now tried.now operand member.now) }
{
    for instance in tried {
        if admits_in(alloc, description, operand, member, instance)? {
            return Ok(false);
        }
    }
    Ok(true)
}

// ---- the idle members

fn idle_with(alloc: Global, operand: u32, member: &Member) -> Result<Idle, Memory>
    ensures { IfOk result (λ idle. idle ≡ spec.idle_with operand member.now) }
{
    Ok(Idle {
        operand,
        member: text_of(alloc, member)?,
    })
}

/// Appends those of some members of an operand's constraint.
#[tactic(auto, using(crate::proofs::IdleLaws::idle_next, crate::proofs::IdleLaws::used_next, lint_choices::proofs::PushedLaws::pushed_ends))]
fn push_among(
    alloc: Global,
    description: &Description,
    tried: &[Instance],
    operand: u32,
    members: &[Member],
    out: &mut Items<Idle>,
) -> Result<(), Memory>
    ensures { OnOk result (out.new ≡ out.old
        ++ spec.idle_among description.now tried.now operand members.now) }
{
    for member in members {
        if is_idle(alloc, description, tried, operand, member)? {
            out.push(idle_with(alloc, operand, member)?)?;
        }
    }
    Ok(())
}

/// Appends those of an operand's constraint in an alternative.
#[tactic(auto, using(crate::proofs::IdleLaws::absent))]
fn push_idle(
    alloc: Global,
    description: &Description,
    tried: &[Instance],
    alternative: u32,
    constraint: &OperandConstraint,
    out: &mut Items<Idle>,
) -> Result<(), Memory>
    ensures { OnOk result (out.new ≡ out.old
        ++ spec.idle_in description.now tried.now alternative constraint.now) }
{
    match constraint.constraint.as_slice().get(alternative as usize) {
        Some(found) => push_among(
            alloc,
            description,
            tried,
            constraint.operand,
            found.members.as_slice(),
            out,
        ),
        None => Ok(()),
    }
}

/// Those of all constraints of a form.
#[tactic(auto, using(lint_choices::proofs::PushedLaws::pushed_next, lint_choices::proofs::PushedLaws::pushed_ends))]
fn idle_among_all(
    alloc: Global,
    description: &Description,
    tried: &[Instance],
    alternative: u32,
    constraints: &[OperandConstraint],
) -> Result<Items<Idle>, Memory>
    ensures { IfOk result (λ idle. idle ≡
        flat_map (spec.idle_in description.now tried.now alternative) constraints.now) }
{
    let mut out = Items::new(alloc);
    for constraint in constraints {
        push_idle(alloc, description, tried, alternative, constraint, &mut out)?;
    }
    Ok(out)
}

#[tactic(auto, using(crate::proofs::IdleLaws::nothing_tried, crate::proofs::IdleLaws::something_tried))]
fn idle_by(
    alloc: Global,
    description: &Description,
    alternative: u32,
    says: &Form,
    tried: &[Instance],
) -> Result<Items<Idle>, Memory>
    ensures { IfOk result (λ idle.
        idle ≡ spec.idle_by description.now alternative says.now tried.now) }
{
    if tried.len() == 0 {
        return Ok(Items::new(alloc));
    }
    idle_among_all(
        alloc,
        description,
        tried,
        alternative,
        says.constraints.as_slice(),
    )
}

/// The members of the constraints of an alternative that admit nothing of what is tried of it, by
/// the numbers in the tests of the description; none where nothing is tried.
pub fn idle_of(
    alloc: Global,
    description: &Description,
    tested: &[i64],
    form: u32,
    alternative: u32,
) -> Result<Items<Idle>, Memory>
    ensures { IfOk result (λ idle.
        idle ≡ spec.idle_of description.now tested.now form alternative) }
{
    let Some(says) = accepted_form(description.forms().as_slice(), form) else {
        return Ok(Items::new(alloc));
    };
    let tried = instances_tried(alloc, description, tested, form, alternative)?;
    idle_by(alloc, description, alternative, says, tried.as_slice())
}
