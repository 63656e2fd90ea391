//! The operands that forms take and change.
ghost use Rattle.std.specs.Prelude.{◌≡◌, ◌++◌, IfOk, OnOk};
ghost use Rattle.std.specs.List.{flat_map};
ghost use Rattle.rtx_tree.specs.Tree.{head_of};
ghost use Rattle.md_constr.specs.Inputs as spec;

use md_forms::Form;
use plain_data::{Items, Memory};
use rtx_tree::{Code, Rtx};
use std::alloc::Global;
use std::slice;

/// Numbers of operands.
type Numbers = Items<u64>;

/// Appends the number of the operand for which an expression itself stands.
fn push_operand_here(x: &Rtx, numbers: &mut Numbers) -> Result<(), Memory>
    ensures { OnOk result (numbers.new ≡ numbers.old ++ spec.operand_here (head_of x.now).code
        (head_of x.now).number) }
{
    match x.code {
        Code::MatchOperand | Code::MatchDup | Code::MatchScratch | Code::MatchOperator => {
            numbers.push(x.number.cast_unsigned())
        }
        _ => Ok(()),
    }
}

/// Appends the numbers of the operands whose values an expression takes.
#[tactic(auto, using(crate::proofs::InputLaws::taken_first, pred_expr::proofs::Each::pushed_next, pred_expr::proofs::Each::pushed_ends))]
fn push_taken(x: &Rtx, numbers: &mut Numbers) -> Result<(), Memory>
    ensures { OnOk result (numbers.new ≡ numbers.old ++ spec.taken_in x.now) }
{
    push_operand_here(x, numbers)?;
    for kid in x.kids.as_slice() {
        push_taken(kid, numbers)?;
    }
    Ok(())
}

#[tactic(auto, using(pred_expr::proofs::Each::pushed_next, pred_expr::proofs::Each::pushed_ends))]
fn push_each_taken(parts: &[Rtx], numbers: &mut Numbers) -> Result<(), Memory>
    ensures { OnOk result (numbers.new ≡ numbers.old ++ flat_map spec.taken_in parts.now) }
{
    for part in parts {
        push_taken(part, numbers)?;
    }
    Ok(())
}

/// Appends what is taken where an expression is a target.
fn push_taken_at(target: &Rtx, numbers: &mut Numbers) -> Result<(), Memory>
    ensures { OnOk result (numbers.new ≡ numbers.old ++ spec.taken_at target.now) }
{
    match (target.code, target.kids.as_slice()) {
        (Code::Subreg, [inner]) => push_each_taken(inner.kids.as_slice(), numbers),
        (_, parts) => push_each_taken(parts, numbers),
    }
}

#[tactic(auto, using(crate::proofs::InputLaws::appended_both))]
fn push_taken_by_set(target: &Rtx, source: &Rtx, numbers: &mut Numbers) -> Result<(), Memory>
    ensures { OnOk result (numbers.new ≡ numbers.old ++
        (spec.taken_at target.now ++ spec.taken_in source.now)) }
{
    push_taken_at(target, numbers)?;
    push_taken(source, numbers)
}

/// Appends what an effect takes.
fn push_taken_by(x: &Rtx, numbers: &mut Numbers) -> Result<(), Memory>
    ensures { OnOk result (numbers.new ≡ numbers.old ++ spec.taken_by x.now) }
{
    match (x.code, x.kids.as_slice()) {
        (Code::Set, [target, source]) => push_taken_by_set(target, source, numbers),
        (
            Code::Use
            | Code::Clobber
            | Code::MatchOperand
            | Code::MatchDup
            | Code::MatchScratch
            | Code::MatchOperator
            | Code::MatchOpDup,
            _,
        ) => Ok(()),
        _ => push_taken(x, numbers),
    }
}

/// Appends the operand that is a target, or whose low part is.
fn push_changed_at(target: &Rtx, numbers: &mut Numbers) -> Result<(), Memory>
    ensures { OnOk result (numbers.new ≡ numbers.old ++ spec.changed_at target.now) }
{
    match (target.code, target.kids.as_slice()) {
        (Code::Subreg, [inner]) => push_operand_here(inner, numbers),
        _ => push_operand_here(target, numbers),
    }
}

/// Appends what an effect changes.
fn push_changed_by(x: &Rtx, numbers: &mut Numbers) -> Result<(), Memory>
    ensures { OnOk result (numbers.new ≡ numbers.old ++ spec.changed_by x.now) }
{
    match (x.code, x.kids.as_slice()) {
        (Code::Set, [target, _]) => push_changed_at(target, numbers),
        (Code::Clobber, [target]) => push_changed_at(target, numbers),
        _ => Ok(()),
    }
}

#[tactic(auto, using(pred_expr::proofs::Each::pushed_next, pred_expr::proofs::Each::pushed_ends))]
fn push_each_taken_by(effects: &[Rtx], numbers: &mut Numbers) -> Result<(), Memory>
    ensures { OnOk result (numbers.new ≡ numbers.old ++ flat_map spec.taken_by effects.now) }
{
    for effect in effects {
        push_taken_by(effect, numbers)?;
    }
    Ok(())
}

#[tactic(auto, using(pred_expr::proofs::Each::pushed_next, pred_expr::proofs::Each::pushed_ends))]
fn push_each_changed_by(effects: &[Rtx], numbers: &mut Numbers) -> Result<(), Memory>
    ensures { OnOk result (numbers.new ≡ numbers.old ++ flat_map spec.changed_by effects.now) }
{
    for effect in effects {
        push_changed_by(effect, numbers)?;
    }
    Ok(())
}

/// The effects of a pattern: those of a `parallel`, or itself.
pub fn effects_of(pattern: &Rtx) -> &[Rtx]
    ensures { result.now ≡ spec.effects_of pattern.now }
{
    match pattern.code {
        Code::Parallel => pattern.kids.as_slice(),
        _ => slice::from_ref(pattern),
    }
}

#[tactic(auto, using(pred_expr::proofs::Each::pushed_next, pred_expr::proofs::Each::pushed_ends))]
fn push_inputs(patterns: &[Rtx], numbers: &mut Numbers) -> Result<(), Memory>
    ensures { OnOk result (numbers.new ≡ numbers.old ++ flat_map spec.inputs_in patterns.now) }
{
    for pattern in patterns {
        push_each_taken_by(effects_of(pattern), numbers)?;
    }
    Ok(())
}

#[tactic(auto, using(pred_expr::proofs::Each::pushed_next, pred_expr::proofs::Each::pushed_ends))]
fn push_changed(patterns: &[Rtx], numbers: &mut Numbers) -> Result<(), Memory>
    ensures { OnOk result (numbers.new ≡ numbers.old ++ flat_map spec.changed_in patterns.now) }
{
    for pattern in patterns {
        push_each_changed_by(effects_of(pattern), numbers)?;
    }
    Ok(())
}

/// The numbers of a form's inputs.
pub fn inputs_of(alloc: Global, form: &Form) -> Result<Numbers, Memory>
    ensures { IfOk result (λ inputs. inputs ≡ spec.inputs_of form.now) }
{
    let mut numbers = Items::new(alloc);
    push_inputs(form.patterns.as_slice(), &mut numbers)?;
    Ok(numbers)
}

/// The numbers of the operands in a form's patterns.
pub fn operands_of(alloc: Global, form: &Form) -> Result<Numbers, Memory>
    ensures { IfOk result (λ operands. operands ≡ spec.operands_of form.now) }
{
    let mut numbers = Items::new(alloc);
    push_each_taken(form.patterns.as_slice(), &mut numbers)?;
    Ok(numbers)
}

/// The numbers of the operands that a form sets or clobbers.
pub fn changed_of(alloc: Global, form: &Form) -> Result<Numbers, Memory>
    ensures { IfOk result (λ changed. changed ≡ spec.changed_of form.now) }
{
    let mut numbers = Items::new(alloc);
    push_changed(form.patterns.as_slice(), &mut numbers)?;
    Ok(numbers)
}
