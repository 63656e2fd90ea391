//! Comparisons of operands that are prepared.
ghost use Rattle.std.specs.Prelude.{◌≡◌, [], ◌∷◌, IfOk};
ghost use Rattle.rtx_tree.specs.Tree.{head_of, tree_of};
ghost use Rattle.md_pred.specs.Holds.{holds};
ghost use Rattle.lower_insn.specs.Settings as spec;

use crate::fit::refuses;
use crate::part::Prepared;
use crate::prepared::{behind, copy_of, over, with_tree};
use md_desc::Description;
use md_match::giver_among;
use plain_data::{Items, Memory};
use rtx_tree::Rtx;
use std::alloc::Global;
use std_name::{OperandRole, StandardOperand};

// ---- made

/// The comparison of two operands.
fn compare(
    alloc: Global,
    operand: &StandardOperand,
    a: &StandardOperand,
    b: &StandardOperand,
) -> Result<StandardOperand, Memory>
    ensures { IfOk result (λ made. made ≡ spec.with_tree operand.now
        (tree_of (head_of operand.now.tree) (a.now.tree ∷ b.now.tree ∷ []))) }
{
    let mut kids = Items::new(alloc);
    kids.push(a.tree.copy(alloc)?)?;
    kids.push(b.tree.copy(alloc)?)?;
    let tree = over(alloc, &operand.tree, kids)?;
    Ok(with_tree(operand, tree))
}

/// An operand, or, if it is a comparison, that of the two behind it.
fn compare_one(
    alloc: Global,
    operand: &StandardOperand,
    behind: &[StandardOperand],
) -> Result<StandardOperand, Memory>
    ensures { IfOk result (λ made.
        made ≡ spec.compared_by operand.now.role operand.now behind.now) }
{
    match (operand.role, behind) {
        (OperandRole::Comparison, [a, b, ..]) => compare(alloc, operand, a, b),
        _ => copy_of(alloc, operand),
    }
}

/// The operands, with comparisons of what the others are.
fn compared(alloc: Global, operands: &[StandardOperand]) -> Result<Items<StandardOperand>, Memory>
    ensures { IfOk result (λ all. all ≡ spec.compared operands.now) }
{
    let mut all = Items::new(alloc);
    let mut rest = operands;
    while let [operand, others @ ..] = rest {
        all.push(compare_one(alloc, operand, others)?)?;
        rest = others;
    }
    Ok(all)
}

// ---- taken

/// Whether a form takes a tree as the operand with a number.
fn takes(desc: &Description, patterns: &[Rtx], number: u32, x: &Rtx) -> bool
    ensures { result ≡ spec.takes (holds desc.now) patterns.now number x.now }
{
    match giver_among(patterns, number) {
        Some(placeholder) => !refuses(desc, placeholder, x),
        None => true,
    }
}

/// Whether it takes an operand, if that is a comparison.
fn takes_comparison(
    desc: &Description,
    patterns: &[Rtx],
    number: u32,
    operand: &StandardOperand,
) -> bool
    ensures { result ≡ spec.takes_comparison operand.now.role
        (holds desc.now) patterns.now number operand.now.tree }
{
    match operand.role {
        OperandRole::Comparison => takes(desc, patterns, number, &operand.tree),
        _ => true,
    }
}

/// Whether it takes each comparison.
fn takes_comparisons(
    desc: &Description,
    patterns: &[Rtx],
    operands: &[StandardOperand],
) -> Result<bool, Memory>
    ensures { IfOk result (λ b.
        b ≡ spec.takes_comparisons (holds desc.now) patterns.now 0 operands.now) }
{
    let mut number = 0;
    let mut rest = operands;
    while let [operand, others @ ..] = rest {
        if !takes_comparison(desc, patterns, number, operand) {
            return Ok(false);
        }
        number = behind(number)?;
        rest = others;
    }
    Ok(true)
}

/// Prepared operands with their comparisons, or `None` exactly where the form does not take one.
pub(crate) fn with_comparisons(
    alloc: Global,
    desc: &Description,
    patterns: &[Rtx],
    values: Prepared,
) -> Result<Option<Prepared>, Memory>
    ensures { IfOk result (λ all. all ≡ spec.with_comparisons (holds desc.now) patterns.now values) }
{
    let operands = compared(alloc, values.operands.as_slice())?;
    if !takes_comparisons(desc, patterns, operands.as_slice())? {
        return Ok(None);
    }
    let mut all = values;
    all.operands = operands;
    Ok(Some(all))
}
