//! Registers replaced by their homes.
ghost use Rattle.std.specs.Prelude.{◌≡◌, ◌<◌, ◌^◌, map, IfOk, IfSome};
ghost use Rattle.std.specs.List.Sorted.{IsStrictlyIncreasing};
ghost use Rattle.assign.specs.declared.home.Home.TheVariants.{Slot};
ghost use Rattle.reload_homes.specs.Homes as spec;

use crate::frame_refs::from_sp;
use crate::lookup::{home_at, slot_offset};
use crate::parts::with_parts;
use assign::{Home, Homes, Layout};
use plain_data::{Items, Memory};
use rtx_tree::{Code, Mode, Rtx};
use std::alloc::Global;

/// The register that a tree is, or `None` where it is none.
pub fn register_in(x: &Rtx) -> Option<u64>
    ensures value { result ≡ spec.register_in x.now }
    ensures small { IfSome result (λ reg. reg < 2 ^ 63) }
{
    match x.code {
        Code::Reg => u64::try_from(x.number).ok(),
        _ => None,
    }
}

/// The register that a tree is, or of which it is the low part, or `None` where it is neither.
pub fn register_at(x: &Rtx) -> Option<u64>
    ensures value { result ≡ spec.register_at x.now }
    ensures small { IfSome result (λ reg. reg < 2 ^ 63) }
{
    match (x.code, x.kids.as_slice()) {
        (Code::Subreg, [inner]) => register_in(inner),
        _ => register_in(x),
    }
}

/// The memory of a register's slot, in a mode.
fn slot_of(alloc: Global, layout: &Layout, mode: Mode, reg: u64) -> Result<Rtx, Memory>
    requires { IsStrictlyIncreasing (map (λ s. s.pseudo) layout.now.slots) }
    ensures { IfOk result (λ r. r ≡ spec.place_by layout.now mode reg Slot) }
{
    let address = from_sp(alloc, Mode::DI, slot_offset(layout, reg))?;
    Rtx::of_one(alloc, Code::Mem, mode, address)
}

/// What stands for a register in a mode: the hard register or the slot in which it lives.
pub fn place_for(
    alloc: Global,
    homes: &Homes,
    layout: &Layout,
    mode: Mode,
    reg: u64,
) -> Result<Rtx, Memory>
    requires ordered { spec.AreOrdered homes.now layout.now }
    requires small { reg < 2 ^ 63 }
    ensures { IfOk result (λ r. r ≡ spec.place_for homes.now layout.now mode reg) }
{
    match home_at(homes.as_slice(), reg) {
        None => Ok(Rtx::leaf(alloc, Code::Reg, mode, reg as i64)),
        Some(Home::Hard { reg: hard }) => Ok(Rtx::reg(alloc, mode, u32::from(hard))),
        Some(Home::Slot) => slot_of(alloc, layout, mode, reg),
    }
}

/// A tree with the homes of its registers put in: each register, or the low part of one, becomes
/// the hard register or the memory of the slot in which it lives, in the tree's mode.
#[tactic(auto, using(crate::proofs::Rewrites::homed_register))]
pub fn with_homes(alloc: Global, x: &Rtx, homes: &Homes, layout: &Layout) -> Result<Rtx, Memory>
    requires { spec.AreOrdered homes.now layout.now }
    ensures { IfOk result (λ r. r ≡ spec.homed homes.now layout.now x.now) }
{
    match register_at(x) {
        Some(reg) => place_for(alloc, homes, layout, x.mode, reg),
        None => {
            let mut kids = Items::new(alloc);
            for kid in x.kids.as_slice() {
                kids.push(with_homes(alloc, kid, homes, layout)?)?;
            }
            with_parts(alloc, x, kids)
        }
    }
}
