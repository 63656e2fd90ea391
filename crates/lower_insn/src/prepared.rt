//! What operands come to, one behind the other.
ghost use Rattle.std.specs.Prelude.{◌≡◌, ◌+◌, [], ◌∷◌, IfOk};
ghost use Rattle.rtx_tree.specs.Registers as registers;
ghost use Rattle.rtx_tree.specs.Patterns.{set_rtx};
ghost use Rattle.rtx_tree.specs.Tree.{reg_of, head_of, tree_of};
ghost use Rattle.lower_insn.specs.Settings as spec;

use crate::part::Prepared;
use plain_data::{Items, Memory};
use rtx_tree::{Code, Kids, Mode, Rtx};
use std::alloc::Global;
use std_name::StandardOperand;

/// No operands.
pub(crate) fn nothing(alloc: Global, next: u32) -> Prepared
    ensures { result ≡ spec.nothing next }
{
    Prepared {
        before: Items::new(alloc),
        operands: Items::new(alloc),
        after: Items::new(alloc),
        next,
    }
}

/// One operand more, as it is.
#[tactic(auto, using(crate::proofs::Joined::keeps))]
pub(crate) fn keep(so_far: Prepared, operand: StandardOperand) -> Result<Prepared, Memory>
    ensures { IfOk result (λ more. more ≡ spec.joined so_far (spec.unchanged operand so_far.next)) }
{
    let mut more = so_far;
    more.operands.push(operand)?;
    Ok(more)
}

/// One operand more, with an instruction that stands before.
#[tactic(auto, using(crate::proofs::Joined::keeps))]
pub(crate) fn set_before(
    so_far: Prepared,
    setting: Rtx,
    operand: StandardOperand,
    next: u32,
) -> Result<Prepared, Memory>
    ensures { IfOk result (λ more.
        more ≡ spec.joined so_far (spec.prepared (setting ∷ []) (operand ∷ []) [] next)) }
{
    let mut more = so_far;
    more.before.push(setting)?;
    more.operands.push(operand)?;
    more.next = next;
    Ok(more)
}

/// One operand more, with an instruction that stands behind.
#[tactic(auto, using(crate::proofs::Joined::keeps))]
pub(crate) fn set_behind(
    so_far: Prepared,
    operand: StandardOperand,
    setting: Rtx,
    next: u32,
) -> Result<Prepared, Memory>
    ensures { IfOk result (λ more.
        more ≡ spec.joined so_far (spec.prepared [] (operand ∷ []) (setting ∷ []) next)) }
{
    let mut more = so_far;
    more.operands.push(operand)?;
    more.after.push(setting)?;
    more.next = next;
    Ok(more)
}

/// An operand once more.
pub(crate) fn copy_of(alloc: Global, operand: &StandardOperand) -> Result<StandardOperand, Memory>
    ensures { IfOk result (λ copy. copy ≡ operand.now) }
{
    Ok(with_tree(operand, operand.tree.copy(alloc)?))
}

/// Another tree as an operand.
pub(crate) fn with_tree(operand: &StandardOperand, tree: Rtx) -> StandardOperand
    ensures { result ≡ spec.with_tree operand.now tree }
{
    StandardOperand {
        tree,
        role: operand.role,
        mode: operand.mode,
    }
}

/// A tree with other kids in the place of its own.
pub(crate) fn over(alloc: Global, x: &Rtx, kids: Kids) -> Result<Rtx, Memory>
    ensures { IfOk result (λ y. y ≡ tree_of (head_of x.now) kids) }
{
    Ok(Rtx {
        code: x.code,
        mode: x.mode,
        number: x.number,
        name: x.name.copy(alloc)?,
        kids,
    })
}

/// The number of the register that a pseudo register is. A number past 32 bits finds no memory.
pub(crate) fn pseudo(next: u32) -> Result<u32, Memory>
    ensures { IfOk result (λ reg. reg ≡ registers.pseudo next) }
{
    match next.checked_add(64) {
        Some(reg) => Ok(reg),
        None => Err(Memory),
    }
}

/// The number behind one. A number past 32 bits finds no memory.
pub(crate) fn behind(next: u32) -> Result<u32, Memory>
    ensures { IfOk result (λ more. more ≡ next + 1) }
{
    match next.checked_add(1) {
        Some(more) => Ok(more),
        None => Err(Memory),
    }
}

/// The setting of a place to a value.
pub(crate) fn setting(alloc: Global, target: Rtx, source: Rtx) -> Result<Rtx, Memory>
    ensures { IfOk result (λ x. x ≡ set_rtx target source) }
{
    Rtx::of_two(alloc, Code::Set, Mode::Void, target, source)
}
