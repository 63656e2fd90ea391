//! Registers in slots, and the bases of addresses.
ghost use Rattle.std.specs.Prelude.{◌≡◌};
ghost use Rattle.std.specs.List.Sorted.{IsStrictlyIncreasing};
ghost use Rattle.assign.specs.Homes.{pseudos};
ghost use Rattle.rtx_tree.specs.Tree.{head_of};
ghost use Rattle.reload_homes.specs.Homes.{AreOrdered};
ghost use Rattle.reload_operands.specs.Bases as spec;

use crate::operand::Base;
use assign::{Home, Homes, Layout};
use reload_homes::{home_at, register_at, register_in, slot_offset};
use rtx_tree::{Code, Mode, Rtx};

/// Whether a register lives in a slot.
pub fn lives_in_slot(homes: &Homes, reg: u64) -> bool
    requires { IsStrictlyIncreasing (pseudos homes.now) }
    ensures { result ≡ spec.lives_in_slot homes.now reg }
{
    match home_at(homes.as_slice(), reg) {
        Some(Home::Slot) => true,
        Some(Home::Hard { .. }) => false,
        None => false,
    }
}

/// Whether a tree is a register, or the low part of one, that lives in a slot.
pub fn in_slot(homes: &Homes, x: &Rtx) -> bool
    requires { IsStrictlyIncreasing (pseudos homes.now) }
    ensures { result ≡ spec.in_slot homes.now x.now }
{
    match register_at(x) {
        Some(reg) => lives_in_slot(homes, reg),
        None => false,
    }
}

fn base_in(homes: &Homes, layout: &Layout, added: i64, reg: u64) -> Option<Base>
    requires { AreOrdered homes.now layout.now }
    ensures { result ≡ spec.base_in homes.now layout.now added reg }
{
    if lives_in_slot(homes, reg) {
        Some(Base {
            slot: slot_offset(layout, reg),
            added,
        })
    } else {
        None
    }
}

/// The base of an address that is a register with a number added.
fn base_with(homes: &Homes, layout: &Layout, added: i64, x: &Rtx) -> Option<Base>
    requires { AreOrdered homes.now layout.now }
    ensures { result ≡ spec.base_with homes.now layout.now added x.now }
{
    match register_in(x) {
        Some(reg) => base_in(homes, layout, added, reg),
        None => None,
    }
}

fn base_of_sum(homes: &Homes, layout: &Layout, parts: &[Rtx]) -> Option<Base>
    requires { AreOrdered homes.now layout.now }
    ensures { result ≡ spec.base_of_sum homes.now layout.now parts.now }
{
    match parts {
        [x, constant] => {
            if constant.is_constant() {
                base_with(homes, layout, constant.number, x)
            } else {
                None
            }
        }
        _ => None,
    }
}

fn base_at(homes: &Homes, layout: &Layout, address: &Rtx) -> Option<Base>
    requires { AreOrdered homes.now layout.now }
    ensures { result ≡ spec.base_at homes.now layout.now (head_of address.now).code address.now }
{
    match address.code {
        Code::Plus => base_of_sum(homes, layout, address.kids.as_slice()),
        _ => base_with(homes, layout, 0, address),
    }
}

fn base_of_address(homes: &Homes, layout: &Layout, address: &Rtx) -> Option<Base>
    requires { AreOrdered homes.now layout.now }
    ensures { result ≡ spec.base_of_address homes.now layout.now address.now }
{
    match address.mode {
        Mode::DI => base_at(homes, layout, address),
        Mode::Void | Mode::QI | Mode::HI | Mode::SI => None,
    }
}

/// The base of a memory's address, or of a sum that is an address itself, where the base lives in a
/// slot.
pub fn base_of(homes: &Homes, layout: &Layout, x: &Rtx) -> Option<Base>
    requires { AreOrdered homes.now layout.now }
    ensures { result ≡ spec.base_of homes.now layout.now x.now }
{
    match (x.code, x.kids.as_slice()) {
        (Code::Mem, [address]) => base_of_address(homes, layout, address),
        (Code::Plus, _) => base_of_address(homes, layout, x),
        _ => None,
    }
}
