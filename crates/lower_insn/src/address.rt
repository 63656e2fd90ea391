//! Addresses that are not legitimate.
ghost use Rattle.std.specs.Prelude.{◌≡◌, IfOk};
ghost use Rattle.rtx_tree.specs.Tree.{head_of, kids_of};
ghost use Rattle.lower_insn.specs.Settings as spec;

use crate::part::Prepared;
use crate::prepared::{
    behind, copy_of, keep, nothing, over, pseudo, set_before, setting, with_tree,
};
use md_operand::legitimate_address;
use plain_data::{Items, Memory};
use rtx_tree::{Code, Mode, Rtx};
use std::alloc::Global;
use std_name::StandardOperand;

/// One operand more: the memory at an address that a new register holds.
fn set_address(
    alloc: Global,
    operand: &StandardOperand,
    address: &Rtx,
    so_far: Prepared,
) -> Result<Prepared, Memory>
    ensures { IfOk result (λ more.
        more ≡ spec.joined so_far (spec.address_set operand.now address.now so_far.next)) }
{
    let next = so_far.next;
    let reg = pseudo(next)?;
    let set = setting(alloc, Rtx::reg(alloc, Mode::DI, reg), address.copy(alloc)?)?;
    let mut kids = Items::new(alloc);
    kids.push(Rtx::reg(alloc, Mode::DI, reg))?;
    let memory = over(alloc, &operand.tree, kids)?;
    set_before(so_far, set, with_tree(operand, memory), behind(next)?)
}

/// One operand more, by its address.
fn address_at(
    alloc: Global,
    operand: &StandardOperand,
    address: &Rtx,
    so_far: Prepared,
) -> Result<Prepared, Memory>
    ensures { IfOk result (λ more.
        more ≡ spec.joined so_far (spec.addressed_at operand.now address.now so_far.next)) }
{
    if legitimate_address(address) {
        keep(so_far, copy_of(alloc, operand)?)
    } else {
        set_address(alloc, operand, address, so_far)
    }
}

/// One operand more, where its address is seen to.
fn address_one(
    alloc: Global,
    operand: &StandardOperand,
    so_far: Prepared,
) -> Result<Prepared, Memory>
    ensures { IfOk result (λ more.
        more ≡ spec.joined so_far (spec.addressed_one operand.now so_far.next)) }
{
    match (operand.tree.code, operand.tree.kids.as_slice()) {
        (Code::Mem, [address]) => address_at(alloc, operand, address, so_far),
        _ => keep(so_far, copy_of(alloc, operand)?),
    }
}

/// The operands, where each address that is not legitimate is set into a new register.
#[tactic(auto, using(crate::proofs::Joined::addresses_begin, crate::proofs::Joined::addresses_go_on, crate::proofs::Joined::addresses_end))]
pub(crate) fn addressed(
    alloc: Global,
    operands: &[StandardOperand],
    next: u32,
) -> Result<Prepared, Memory>
    ensures { IfOk result (λ all. all ≡ spec.addressed operands.now next) }
{
    let mut so_far = nothing(alloc, next);
    for operand in operands {
        so_far = address_one(alloc, operand, so_far)?;
    }
    Ok(so_far)
}
