//! Copies of constraints.
ghost use Rattle.std.specs.Prelude.{◌≡◌, IfOk};

use md_forms::OperandConstraint;
use md_text::{Alternative, Constraint, Member};
use plain_data::{Items, Memory};
use std::alloc::Global;

fn member_copy(alloc: Global, member: &Member) -> Result<Member, Memory>
    ensures { IfOk result (λ copy. copy ≡ member.now) }
{
    match member {
        Member::Letter(letter) => Ok(Member::Letter(*letter)),
        Member::Same(number) => Ok(Member::Same(*number)),
        Member::Defined(name) => Ok(Member::Defined(name.copy(alloc)?)),
    }
}

fn members_copy(alloc: Global, members: &[Member]) -> Result<Items<Member>, Memory>
    ensures { IfOk result (λ copy. copy ≡ members.now) }
{
    let mut copy = Items::new(alloc);
    for member in members {
        copy.push(member_copy(alloc, member)?)?;
    }
    Ok(copy)
}

fn alternative_copy(alloc: Global, alternative: &Alternative) -> Result<Alternative, Memory>
    ensures { IfOk result (λ copy. copy ≡ alternative.now) }
{
    Ok(Alternative {
        direction: alternative.direction,
        early: alternative.early,
        slight: alternative.slight,
        severe: alternative.severe,
        members: members_copy(alloc, alternative.members.as_slice())?,
    })
}

fn alternatives_copy(alloc: Global, alternatives: &[Alternative]) -> Result<Constraint, Memory>
    ensures { IfOk result (λ copy. copy ≡ alternatives.now) }
{
    let mut copy = Items::new(alloc);
    for alternative in alternatives {
        copy.push(alternative_copy(alloc, alternative)?)?;
    }
    Ok(copy)
}

fn constraint_copy(
    alloc: Global,
    constraint: &OperandConstraint,
) -> Result<OperandConstraint, Memory>
    ensures { IfOk result (λ copy. copy ≡ constraint.now) }
{
    Ok(OperandConstraint {
        operand: constraint.operand,
        constraint: alternatives_copy(alloc, constraint.constraint.as_slice())?,
    })
}

/// A copy of constraints.
pub fn constraints_copy(
    alloc: Global,
    constraints: &[OperandConstraint],
) -> Result<Items<OperandConstraint>, Memory>
    ensures { IfOk result (λ copy. copy ≡ constraints.now) }
{
    let mut copy = Items::new(alloc);
    for constraint in constraints {
        copy.push(constraint_copy(alloc, constraint)?)?;
    }
    Ok(copy)
}
