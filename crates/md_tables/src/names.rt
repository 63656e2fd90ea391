//! The predicates that a form names.
ghost use Rattle.std.specs.Prelude.{◌≡◌, [], ◌++◌, IfOk, OnOk};
ghost use Rattle.std.specs.List.{flat_map};
ghost use Rattle.rtx_tree.specs.Tree.{head_of};
ghost use Rattle.md_tables.specs.Names as spec;

use c_cond::CondHead;
use md_draft::Draft;
use plain_data::{Items, Memory};
use pred_expr::Test;
use rtx_tree::{Code, Name, Rtx};
use std::alloc::Global;

fn push_predicate(alloc: Global, x: &Rtx, names: &mut Items<Name>) -> Result<(), Memory>
    ensures { OnOk result (names.new ≡ names.old ++ spec.predicate_here (head_of x.now).code
        (head_of x.now).name) }
{
    match x.code {
        Code::MatchOperand | Code::MatchOperator => names.push(x.name.copy(alloc)?),
        _ => Ok(()),
    }
}

/// Appends the predicates of an expression's operands.
#[tactic(auto, using(crate::proofs::NameLaws::predicates_first, pred_expr::proofs::Each::pushed_next, pred_expr::proofs::Each::pushed_ends))]
fn push_predicates(alloc: Global, x: &Rtx, names: &mut Items<Name>) -> Result<(), Memory>
    ensures { OnOk result (names.new ≡ names.old ++ spec.predicates_in x.now) }
{
    push_predicate(alloc, x, names)?;
    for kid in x.kids.as_slice() {
        push_predicates(alloc, kid, names)?;
    }
    Ok(())
}

/// Appends those of several expressions.
#[tactic(auto, using(pred_expr::proofs::Each::pushed_next, pred_expr::proofs::Each::pushed_ends))]
fn push_all_predicates(alloc: Global, trees: &[Rtx], names: &mut Items<Name>) -> Result<(), Memory>
    ensures { OnOk result (names.new ≡ names.old ++ flat_map spec.predicates_in trees.now) }
{
    for tree in trees {
        push_predicates(alloc, tree, names)?;
    }
    Ok(())
}

fn push_predicate_of(alloc: Global, head: &CondHead, names: &mut Items<Name>) -> Result<(), Memory>
    ensures { OnOk result (names.new ≡ names.old ++ spec.predicate_of_head head.now) }
{
    match head {
        CondHead::Predicate(name) => names.push(name.copy(alloc)?),
        _ => Ok(()),
    }
}

/// Appends the predicates that a condition or statements call.
#[tactic(auto, using(pred_expr::proofs::Each::pushed_next, pred_expr::proofs::Each::pushed_ends))]
fn push_called(alloc: Global, heads: &[CondHead], names: &mut Items<Name>) -> Result<(), Memory>
    ensures { OnOk result (names.new ≡ names.old ++ flat_map spec.predicate_of_head heads.now) }
{
    for head in heads {
        push_predicate_of(alloc, head, names)?;
    }
    Ok(())
}

fn push_tested(alloc: Global, test: &Option<Test>, names: &mut Items<Name>) -> Result<(), Memory>
    ensures { OnOk result (names.new ≡ names.old ++ spec.predicates_tested test.now) }
{
    match test {
        Some(test) => test.push_predicates(alloc, names),
        None => Ok(()),
    }
}

/// Puts all predicates that a form names into an empty list.
#[tactic(auto, using(crate::proofs::NameLaws::six), unfolding(crate::specs::Names::predicates_named))]
fn push_named(alloc: Global, draft: &Draft, names: &mut Items<Name>) -> Result<(), Memory>
    requires { names.old ≡ [] }
    ensures { OnOk result (names.new ≡ spec.predicates_named draft.now) }
{
    push_all_predicates(alloc, draft.matched.patterns.trees.as_slice(), names)?;
    push_all_predicates(alloc, draft.replacement.sequence.trees.as_slice(), names)?;
    push_called(alloc, draft.matched.condition.heads(), names)?;
    push_called(alloc, draft.replacement.split_condition.heads(), names)?;
    push_called(alloc, draft.replacement.statements.heads(), names)?;
    push_tested(alloc, &draft.defined.test, names)
}

/// All predicates that a form names.
pub fn predicates_named(alloc: Global, draft: &Draft) -> Result<Items<Name>, Memory>
    ensures { IfOk result (λ names. names ≡ spec.predicates_named draft.now) }
{
    let mut names = Items::new(alloc);
    push_named(alloc, draft, &mut names)?;
    Ok(names)
}
