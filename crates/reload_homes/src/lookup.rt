//! Homes and slots, found by binary search.
ghost use Rattle.std.specs.Prelude.{◌≡◌, ◌==◌, map, option_map};
ghost use Rattle.std.specs.List.{find};
ghost use Rattle.std.specs.List.Sorted.{IsStrictlyIncreasing};
ghost use Rattle.assign.specs.Homes.{register, pseudos};
ghost use Rattle.reload_homes.specs.Homes as spec;

use assign::{Home, HomeOf, Layout, SlotAt};
use rtx_tree::FIRST_PSEUDO;

fn register(x: &HomeOf) -> u64
    ensures { result ≡ register x.now }
{
    u64::from(FIRST_PSEUDO) + u64::from(x.pseudo)
}

fn holds(slot: &SlotAt) -> u64
    ensures { result ≡ spec.holds slot.now }
{
    u64::from(FIRST_PSEUDO) + u64::from(slot.pseudo)
}

/// The home that is listed for a register, or `None` where none is.
pub fn home_at(homes: &[HomeOf], reg: u64) -> Option<Home>
    requires { IsStrictlyIncreasing (pseudos homes.now) }
    ensures { result ≡ spec.home_at homes.now reg }
{
    match homes.binary_search_by_key(&reg, |x| register(x)) {
        Ok(at) => Some(homes[at].home),
        Err(_) => None,
    }
}

/// The offset of the slot that holds a register, or `None` where it has no slot.
fn offset_at(slots: &[SlotAt], reg: u64) -> Option<u64>
    requires { IsStrictlyIncreasing (map (λ s. s.pseudo) slots.now) }
    ensures { result ≡ option_map (λ s. s.offset) (find (λ s. spec.holds s == reg) slots.now) }
{
    match slots.binary_search_by_key(&reg, |slot| holds(slot)) {
        Ok(at) => Some(slots[at].offset),
        Err(_) => None,
    }
}

/// The offset from `sp` of a register's slot, or 0 where it has no slot.
pub fn slot_offset(layout: &Layout, reg: u64) -> u64
    requires { IsStrictlyIncreasing (map (λ s. s.pseudo) layout.now.slots) }
    ensures { result ≡ spec.slot_offset layout.now reg }
{
    match offset_at(layout.slots.as_slice(), reg) {
        Some(offset) => offset,
        None => 0,
    }
}
