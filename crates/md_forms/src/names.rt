//! The operands that a form names, by their numbers.
ghost use Rattle.std.specs.Prelude.{◌≡◌, ◌++◌, ◌||◌, ℕ, IfOk, OnOk};
ghost use Rattle.std.specs.BTreeSet as set;
ghost use Rattle.std.specs.List.{flat_map, list_any};
ghost use Rattle.std.specs.Ordering.{nat_cmp};
ghost use Rattle.rtx_tree.specs.Tree.{head_of};
ghost use Rattle.md_forms.specs.Names as spec;

use md_tables::CondHead;
use plain_data::{Items, Memory};
use rtx_tree::{Code, Rtx};
use std::alloc::Global;
use std::collections::BTreeSet;

fn push_operand(x: &Rtx, numbers: &mut Items<u64>) -> Result<(), Memory>
    ensures { OnOk result (numbers.new ≡ numbers.old ++ spec.operand_here (head_of x.now).code
        (head_of x.now).number) }
{
    match x.code {
        Code::MatchOperand | Code::MatchScratch | Code::MatchOperator => {
            numbers.push(x.number.cast_unsigned())
        }
        _ => Ok(()),
    }
}

/// Appends the numbers of an expression's operands.
#[tactic(auto, using(crate::proofs::NameLaws::operands_first, pred_expr::proofs::Each::pushed_next, pred_expr::proofs::Each::pushed_ends))]
fn push_operands(x: &Rtx, numbers: &mut Items<u64>) -> Result<(), Memory>
    ensures { OnOk result (numbers.new ≡ numbers.old ++ spec.operands_in x.now) }
{
    push_operand(x, numbers)?;
    for kid in x.kids.as_slice() {
        push_operands(kid, numbers)?;
    }
    Ok(())
}

/// Appends the numbers of the operands of several expressions.
#[tactic(auto, using(pred_expr::proofs::Each::pushed_next, pred_expr::proofs::Each::pushed_ends))]
pub fn push_all_operands(trees: &[Rtx], numbers: &mut Items<u64>) -> Result<(), Memory>
    ensures { OnOk result (numbers.new ≡ numbers.old ++ flat_map spec.operands_in trees.now) }
{
    for tree in trees {
        push_operands(tree, numbers)?;
    }
    Ok(())
}

fn push_dup(x: &Rtx, numbers: &mut Items<u64>) -> Result<(), Memory>
    ensures { OnOk result (numbers.new ≡ numbers.old ++ spec.dup_here (head_of x.now).code
        (head_of x.now).number) }
{
    match x.code {
        Code::MatchDup | Code::MatchOpDup => numbers.push(x.number.cast_unsigned()),
        _ => Ok(()),
    }
}

/// Appends the numbers of the operands that stand in an expression once more.
#[tactic(auto, using(crate::proofs::NameLaws::dups_first, pred_expr::proofs::Each::pushed_next, pred_expr::proofs::Each::pushed_ends))]
fn push_dups(x: &Rtx, numbers: &mut Items<u64>) -> Result<(), Memory>
    ensures { OnOk result (numbers.new ≡ numbers.old ++ spec.dups_in x.now) }
{
    push_dup(x, numbers)?;
    for kid in x.kids.as_slice() {
        push_dups(kid, numbers)?;
    }
    Ok(())
}

/// Appends those of several expressions.
#[tactic(auto, using(pred_expr::proofs::Each::pushed_next, pred_expr::proofs::Each::pushed_ends))]
pub fn push_all_dups(trees: &[Rtx], numbers: &mut Items<u64>) -> Result<(), Memory>
    ensures { OnOk result (numbers.new ≡ numbers.old ++ flat_map spec.dups_in trees.now) }
{
    for tree in trees {
        push_dups(tree, numbers)?;
    }
    Ok(())
}

/// Puts the operand that a statement sets among others.
fn note_assigned(head: &CondHead, numbers: &mut BTreeSet<u64>) -> Result<(), Memory>
    ensures { OnOk result ((n : ℕ) → set.contains nat_cmp numbers.new n ≡
        (spec.is_assigned n head.now || set.contains nat_cmp numbers.old n)) }
{
    if let CondHead::Assign(operand) = head {
        numbers.insert(u64::from(*operand))?;
    }
    Ok(())
}

/// The numbers of the operands that statements set.
pub fn assigned_by(alloc: Global, heads: &[CondHead]) -> Result<BTreeSet<u64>, Memory>
    ensures { IfOk result (λ numbers. (n : ℕ) →
        set.contains nat_cmp numbers n ≡ list_any (spec.is_assigned n) heads.now) }
{
    let mut numbers = BTreeSet::new(alloc);
    for at in (0..heads.len()).rev() {
        note_assigned(&heads[at], &mut numbers)?;
    }
    Ok(numbers)
}
