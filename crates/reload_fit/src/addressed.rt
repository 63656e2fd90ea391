//! Operands with a register in their address.
ghost use Rattle.std.specs.Prelude.{◌≡◌, IfOk};
ghost use Rattle.rtx_tree.specs.Tree.{head_of, kids_of, tree_of};
ghost use Rattle.std.specs.Prelude.{[], ◌∷◌};
ghost use Rattle.reload_fit.specs.Addressed as spec;
ghost use Rattle.md_operand.specs.Addresses as far;

use md_operand::is_far;
use plain_data::{Items, Memory};
use reload_operands::{Base, Operand};
use rtx_tree::{Code, Mode, Rtx};
use std::alloc::Global;

/// A register plus a number, or the register alone where the number is 0.
pub fn address_on(alloc: Global, reg: u32, added: i64) -> Result<Rtx, Memory>
    ensures { IfOk result (λ address. address ≡ spec.address_on reg added) }
{
    let base = Rtx::reg(alloc, Mode::DI, reg);
    if added == 0 {
        return Ok(base);
    }
    let added = Rtx::const_int(alloc, added);
    Rtx::of_two(alloc, Code::Plus, Mode::DI, base, added)
}

/// A tree like another, with one part.
fn with_part(alloc: Global, x: &Rtx, part: Rtx) -> Result<Rtx, Memory>
    ensures { IfOk result (λ tree. tree ≡ tree_of (head_of x.now) (part ∷ [])) }
{
    let mut kids = Items::new(alloc);
    kids.push(part)?;
    Ok(Rtx {
        code: x.code,
        mode: x.mode,
        number: x.number,
        name: x.name.copy(alloc)?,
        kids,
    })
}

/// A memory at another address; what is no memory is an address itself.
fn addressed(alloc: Global, address: Rtx, x: &Rtx) -> Result<Rtx, Memory>
    ensures { IfOk result (λ tree. tree ≡ spec.addressed address x.now) }
{
    match x.code {
        Code::Mem => with_part(alloc, x, address),
        _ => Ok(address),
    }
}

fn address_in(alloc: Global, reg: u32, base: Option<Base>) -> Result<Rtx, Memory>
    ensures { IfOk result (λ address. address ≡ spec.address_in reg base) }
{
    match base {
        Some(base) => address_on(alloc, reg, base.added),
        None => Ok(Rtx::reg(alloc, Mode::DI, reg)),
    }
}

/// An operand with a register in its address: in the place of the base that a slot holds, or else
/// of the address as a whole.
pub fn on_register(alloc: Global, reg: u32, x: &Operand) -> Result<Rtx, Memory>
    ensures { IfOk result (λ tree. tree ≡ spec.on_register reg x.now) }
{
    let address = address_in(alloc, reg, x.base)?;
    addressed(alloc, address, &x.tree)
}

fn offset_in_sum(x: &Rtx) -> Option<i64>
    ensures { result ≡ spec.offset_in_sum (kids_of x.now) }
{
    match x.kids.as_slice() {
        [_, offset] => Some(offset.number),
        _ => None,
    }
}

fn offset_in_memory(x: &Rtx) -> Option<i64>
    ensures { result ≡ spec.offset_in_memory (kids_of x.now) }
{
    match x.kids.as_slice() {
        [address] => offset_in_sum(address),
        _ => None,
    }
}

/// How far a far memory is from `sp`.
pub fn far_offset(x: &Rtx) -> Option<i64>
    ensures { result ≡ spec.far_offset x.now }
{
    if is_far(x) { offset_in_memory(x) } else { None }
}

fn is_near(offset: i64) -> bool
    ensures { result ≡ far.is_near offset }
{
    offset >= -2048 && offset <= 2047
}

/// How far the slot of a base is from `sp`, where it is far.
pub fn slot_far(base: Base) -> Option<i64>
    ensures { result ≡ spec.slot_far base }
{
    let offset = base.slot.cast_signed();
    if is_near(offset) { None } else { Some(offset) }
}
