//! Operands that predicates refuse.
ghost use Rattle.std.specs.Prelude.{◌≡◌, ◌∷◌, option_map, IfOk};
ghost use Rattle.rtx_tree.specs.Tree.{head_of};
ghost use Rattle.md_pred.specs.Holds.{holds};
ghost use Rattle.lower_insn.specs.Settings as spec;

use crate::part::Prepared;
use crate::prepared::{
    behind, copy_of, keep, nothing, pseudo, set_before, set_behind, setting, with_tree,
};
use c_eval::Preds;
use md_desc::Description;
use md_match::giver_among;
use md_recog::names_predicate;
use plain_data::Memory;
use rtx_tree::{Mode, Rtx};
use std::alloc::Global;
use std_name::{OperandRole, StandardOperand};

/// Whether the predicate that a placeholder names accepts a tree.
fn accepts(desc: &Description, placeholder: &Rtx, x: &Rtx) -> bool
    ensures { result ≡
        holds desc.now (head_of placeholder.now).name x.now (head_of placeholder.now).mode }
{
    let preds = desc.preds();
    preds.holds(&placeholder.name, x, placeholder.mode)
}

/// Whether the predicate that a placeholder names refuses a tree.
pub(crate) fn refuses(desc: &Description, placeholder: &Rtx, x: &Rtx) -> bool
    ensures { result ≡ spec.refuses (holds desc.now) placeholder.now x.now }
{
    names_predicate(placeholder.code) && !accepts(desc, placeholder, x)
}

/// One operand more: a new register, which is set to it before.
fn set_input(
    alloc: Global,
    mode: Mode,
    operand: &StandardOperand,
    so_far: Prepared,
) -> Result<Prepared, Memory>
    ensures { IfOk result (λ more.
        more ≡ spec.joined so_far (spec.input_set mode operand.now so_far.next)) }
{
    let next = so_far.next;
    let reg = pseudo(next)?;
    let set = setting(alloc, Rtx::reg(alloc, mode, reg), operand.tree.copy(alloc)?)?;
    let register = with_tree(operand, Rtx::reg(alloc, mode, reg));
    set_before(so_far, set, register, behind(next)?)
}

/// One operand more: a new register, from which it is set behind.
fn move_target(
    alloc: Global,
    mode: Mode,
    operand: &StandardOperand,
    so_far: Prepared,
) -> Result<Prepared, Memory>
    ensures { IfOk result (λ more.
        more ≡ spec.joined so_far (spec.target_moved mode operand.now so_far.next)) }
{
    let next = so_far.next;
    let reg = pseudo(next)?;
    let set = setting(alloc, operand.tree.copy(alloc)?, Rtx::reg(alloc, mode, reg))?;
    let register = with_tree(operand, Rtx::reg(alloc, mode, reg));
    set_behind(so_far, register, set, behind(next)?)
}

/// One operand more, in the place of which a new register stands, if one may.
fn replace(
    alloc: Global,
    mode: Mode,
    operand: &StandardOperand,
    so_far: Prepared,
) -> Result<Option<Prepared>, Memory>
    ensures { IfOk result (λ more.
        more ≡ option_map (spec.joined so_far)
        (spec.replaced_by operand.now.role mode operand.now so_far.next)) }
{
    match operand.role {
        OperandRole::Input => Ok(Some(set_input(alloc, mode, operand, so_far)?)),
        OperandRole::Target => Ok(Some(move_target(alloc, mode, operand, so_far)?)),
        OperandRole::Comparison => Ok(Some(keep(so_far, copy_of(alloc, operand)?)?)),
        OperandRole::Fixed => Ok(None),
    }
}

/// One operand more, as its placeholder asks for it.
fn fit_at(
    alloc: Global,
    desc: &Description,
    held: bool,
    operand: &StandardOperand,
    placeholder: &Rtx,
    so_far: Prepared,
) -> Result<Option<Prepared>, Memory>
    ensures { IfOk result (λ more.
        more ≡ option_map (spec.joined so_far)
        (spec.fitted_at (holds desc.now) held operand.now so_far.next placeholder.now)) }
{
    if !refuses(desc, placeholder, &operand.tree) {
        return Ok(Some(keep(so_far, copy_of(alloc, operand)?)?));
    }
    if held {
        return Ok(None);
    }
    let mode = operand.mode.or(placeholder.mode);
    replace(alloc, mode, operand, so_far)
}

/// One operand more, as a form's patterns ask for the operand with its number.
fn fit_one(
    alloc: Global,
    desc: &Description,
    patterns: &[Rtx],
    held: bool,
    number: u32,
    operand: &StandardOperand,
    so_far: Prepared,
) -> Result<Option<Prepared>, Memory>
    ensures { IfOk result (λ more.
        more ≡ option_map (spec.joined so_far)
        (spec.fitted_one (holds desc.now) patterns.now held number operand.now so_far.next)) }
{
    match giver_among(patterns, number) {
        Some(placeholder) => fit_at(alloc, desc, held, operand, placeholder, so_far),
        None => Ok(Some(keep(so_far, copy_of(alloc, operand)?)?)),
    }
}

/// The operands as a form's patterns ask for them, or `None` exactly where one is refused for which
/// no register can stand.
#[tactic(auto, using(crate::proofs::Joined::fits_begin, crate::proofs::Joined::fits_go_on, crate::proofs::Joined::fits_not, crate::proofs::Joined::fits_end))]
pub(crate) fn fitted(
    alloc: Global,
    desc: &Description,
    patterns: &[Rtx],
    held: bool,
    operands: &[StandardOperand],
    next: u32,
) -> Result<Option<Prepared>, Memory>
    ensures { IfOk result (λ all. all ≡ spec.fitted
        (holds desc.now) patterns.now held 0 operands.now next) }
{
    let mut so_far = nothing(alloc, next);
    let mut number = 0;
    for operand in operands {
        match fit_one(alloc, desc, patterns, held, number, operand, so_far)? {
            Some(more) => so_far = more,
            None => return Ok(None),
        }
        number = behind(number)?;
    }
    Ok(Some(so_far))
}
