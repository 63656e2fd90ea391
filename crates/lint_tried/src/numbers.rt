//! The numbers that a description compares with.
ghost use Rattle.std.specs.Prelude.{◌≡◌, ◌++◌, IfOk, OnOk};
ghost use Rattle.std.specs.List.{flat_map};
ghost use Rattle.c_cond.specs.Tree.{tree_of, heads_of};
ghost use Rattle.lint_tried.specs.Numbers as spec;

use c_cond::{Cond, CondHead, Prep};
use md_forms::{Entry, Form};
use plain_data::{Items, Memory};
use pred_expr::{Question, Test};
use std::alloc::Global;

type Numbers = Items<i64>;

#[tactic(auto, using(lint_choices::proofs::PushedLaws::nothing_pushed))]
fn push_head(head: &CondHead, out: &mut Numbers) -> Result<(), Memory>
    ensures { OnOk result (out.new ≡ out.old ++ spec.head_numbers head.now) }
{
    match head {
        CondHead::Number(number) => out.push(*number),
        _ => Ok(()),
    }
}

#[tactic(auto, using(lint_choices::proofs::PushedLaws::pushed_next, lint_choices::proofs::PushedLaws::pushed_ends))]
fn push_heads(heads: &[CondHead], out: &mut Numbers) -> Result<(), Memory>
    ensures { OnOk result (out.new ≡ out.old ++ flat_map spec.head_numbers heads.now) }
{
    for head in heads {
        push_head(head, out)?;
    }
    Ok(())
}

fn push_condition(condition: &Cond, out: &mut Numbers) -> Result<(), Memory>
    ensures { OnOk result (out.new ≡ out.old ++ spec.condition_numbers condition.now) }
{
    push_heads(condition.heads(), out)
}

fn push_statements(statements: &Prep, out: &mut Numbers) -> Result<(), Memory>
    ensures { OnOk result (out.new ≡ out.old ++ spec.condition_numbers statements.now) }
{
    push_heads(statements.heads(), out)
}

/// The numbers in a form's own condition and statements.
#[tactic(auto, using(lint_choices::proofs::PushedLaws::pushed_both))]
pub fn own_numbers(alloc: Global, form: &Form) -> Result<Items<i64>, Memory>
    ensures { IfOk result (λ numbers. numbers ≡ spec.own_numbers form.now) }
{
    let mut numbers = Items::new(alloc);
    push_condition(&form.condition, &mut numbers)?;
    push_statements(&form.statements, &mut numbers)?;
    Ok(numbers)
}

#[tactic(auto, using(lint_choices::proofs::PushedLaws::nothing_pushed))]
fn push_question(question: &Question, out: &mut Numbers) -> Result<(), Memory>
    ensures { OnOk result (out.new ≡ out.old ++ spec.question_numbers question.now) }
{
    match question {
        Question::Condition(condition) => push_condition(condition, out),
        _ => Ok(()),
    }
}

#[tactic(auto, using(crate::proofs::TestLaws::test_pushed, lint_choices::proofs::PushedLaws::pushed_next, lint_choices::proofs::PushedLaws::pushed_ends))]
fn push_test(test: &Test, out: &mut Numbers) -> Result<(), Memory>
    ensures { OnOk result (out.new ≡ out.old ++ spec.test_numbers test.now) }
{
    push_question(&test.question, out)?;
    for part in test.parts.as_slice() {
        push_test(part, out)?;
    }
    Ok(())
}

#[tactic(auto, using(lint_choices::proofs::PushedLaws::nothing_pushed))]
fn push_entry(entry: &Entry, out: &mut Numbers) -> Result<(), Memory>
    ensures { OnOk result (out.new ≡ out.old ++ spec.tested_in entry.now) }
{
    let Ok(form) = &entry.form else {
        return Ok(());
    };
    match &form.test {
        Some(test) => push_test(test, out),
        None => Ok(()),
    }
}

/// The numbers in the tests of a description.
#[tactic(auto, using(lint_choices::proofs::PushedLaws::pushed_next, lint_choices::proofs::PushedLaws::pushed_ends))]
pub fn tested_numbers(alloc: Global, forms: &[Entry]) -> Result<Items<i64>, Memory>
    ensures { IfOk result (λ numbers. numbers ≡ spec.tested_numbers forms.now) }
{
    let mut numbers = Items::new(alloc);
    for entry in forms {
        push_entry(entry, &mut numbers)?;
    }
    Ok(numbers)
}
