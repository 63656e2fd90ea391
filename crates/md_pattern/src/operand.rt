//! The operands of a pattern.
ghost use Rattle.std.specs.Prelude.{◌≡◌, IfOk};
ghost use Rattle.md_pattern.specs.Operand as spec;
ghost use Rattle.md_pattern.specs.machine.Steps as steps;

use crate::word::operand_number;
use lisp_read::{Tree, atom, string};
use plain_data::{Items, Memory};
use rtx_tree::Name;
use std::alloc::Global;

/// The constraint that a pattern gives one of its operands.
#[derive(Drop)]
pub struct OperandText {
    /// The operand's number.
    pub operand: u32,
    /// The text of the constraint.
    pub text: Name,
}

/// The constraints of a pattern's operands, in the order of the text.
pub type OperandTexts = Items<OperandText>;

/// What the words behind a `match` code say.
#[derive(Drop)]
pub struct Operand {
    /// The operand's number.
    pub number: u32,
    /// The name of its predicate, or empty.
    pub predicate: Name,
    /// The operand's constraint, where one is written.
    pub texts: OperandTexts,
}

/// The number of an operand, which has 32 bits.
pub fn number_in(tree: &Tree) -> Option<u32>
    ensures { result ≡ spec.number_in tree.now }
{
    operand_number(atom(tree)?.bytes())
}

/// `NUMBER`
pub fn numbered(alloc: Global, number: &Tree) -> Option<Operand>
    ensures { result ≡ spec.numbered number.now }
{
    let number = number_in(number)?;
    Some(Operand {
        number,
        predicate: Name::empty(alloc),
        texts: Items::new(alloc),
    })
}

fn predicated_with(alloc: Global, number: u32, predicate: &Name) -> Result<Operand, Memory>
    ensures { IfOk result (λ operand. operand ≡ spec.operand_with number predicate.now) }
{
    Ok(Operand {
        number,
        predicate: predicate.copy(alloc)?,
        texts: Items::new(alloc),
    })
}

/// `NUMBER "PREDICATE"`
pub fn predicated(alloc: Global, number: &Tree, predicate: &Tree) -> Result<Option<Operand>, Memory>
    ensures { IfOk result (λ operand. operand ≡ spec.predicated number.now predicate.now) }
{
    match (number_in(number), string(predicate)) {
        (Some(number), Some(predicate)) => Ok(Some(predicated_with(alloc, number, predicate)?)),
        _ => Ok(None),
    }
}

fn constrained(alloc: Global, operand: Operand, text: &Name) -> Result<Operand, Memory>
    ensures { IfOk result (λ whole. whole ≡ spec.constrained operand text.now) }
{
    let Operand {
        number,
        predicate,
        ..
    } = operand;
    let mut texts = Items::new(alloc);
    texts.push(OperandText {
        operand: number,
        text: text.copy(alloc)?,
    })?;
    Ok(Operand {
        number,
        predicate,
        texts,
    })
}

/// An operand with a constraint behind it.
fn with_constraint(
    alloc: Global,
    operand: Option<Operand>,
    constraint: &Tree,
) -> Result<Option<Operand>, Memory>
    ensures { IfOk result (λ whole. whole ≡ spec.with_constraint operand constraint.now) }
{
    match (operand, string(constraint)) {
        (Some(operand), Some(text)) => Ok(Some(constrained(alloc, operand, text)?)),
        _ => Ok(None),
    }
}

/// `NUMBER "PREDICATE" "CONSTRAINT"`, where the constraint may lack.
pub fn operand_in(alloc: Global, parts: &[Tree]) -> Result<Option<Operand>, Memory>
    ensures { IfOk result (λ operand. operand ≡ spec.operand_in parts.now) }
{
    match parts {
        [number, predicate] => predicated(alloc, number, predicate),
        [number, predicate, constraint] => {
            let operand = predicated(alloc, number, predicate)?;
            with_constraint(alloc, operand, constraint)
        }
        _ => Ok(None),
    }
}

/// `NUMBER "CONSTRAINT"`, where the constraint may lack.
pub fn scratch_in(alloc: Global, parts: &[Tree]) -> Result<Option<Operand>, Memory>
    ensures { IfOk result (λ operand. operand ≡ spec.scratch_in parts.now) }
{
    match parts {
        [number] => Ok(numbered(alloc, number)),
        [number, constraint] => with_constraint(alloc, numbered(alloc, number), constraint),
        _ => Ok(None),
    }
}

/// `NUMBER`, and no more.
pub fn dup_in(alloc: Global, parts: &[Tree]) -> Option<Operand>
    ensures { result ≡ spec.dup_in parts.now }
{
    match parts {
        [number] => numbered(alloc, number),
        _ => None,
    }
}

/// `NUMBER "PREDICATE"`, before a vector of expressions.
pub fn operator_in(alloc: Global, parts: &[Tree]) -> Result<Option<Operand>, Memory>
    ensures { IfOk result (λ operand. operand ≡ steps.operator_in parts.now) }
{
    match parts {
        [number, predicate, _] => predicated(alloc, number, predicate),
        _ => Ok(None),
    }
}

/// `NUMBER`, before a vector of expressions.
pub fn operator_dup_in(alloc: Global, parts: &[Tree]) -> Option<Operand>
    ensures { result ≡ steps.operator_dup_in parts.now }
{
    match parts {
        [number, _] => numbered(alloc, number),
        _ => None,
    }
}
