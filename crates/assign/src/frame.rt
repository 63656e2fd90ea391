//! The layout of a function's frame.
ghost use Rattle.std.specs.Prelude.{◌≡◌, ℕ, ◌+◌, ◌*◌, ◌<◌, ◌≤◌, ◌^◌, [], ◌∷◌, ◌++◌, if◌then◌else◌, length, map, filter, IfOk, OnOk};
ghost use Rattle.std.specs.List.{list_any};
ghost use Rattle.rv_regs.specs.Registers as registers;
ghost use Rattle.assign.specs.Frame as spec;

use crate::home::{Home, HomeOf, Homes};
use crate::places::{Layout, SavedAt, SavedPlaces, SlotAt, SlotPlaces};
use plain_data::{Items, Memory};
use rtx_tree::{Function, Insn, Kind};
use rv_regs::{RETURN_ADDRESS, saved_registers};
use std::alloc::Global;

fn is_call(insn: &Insn) -> bool
    ensures { result ≡ spec.is_call insn.now }
{
    matches!(insn.kind, Kind::Call)
}

fn has_call(insns: &[Insn]) -> bool
    ensures { result ≡ list_any spec.is_call insns.now }
{
    insns.iter().any(|insn| is_call(insn))
}

fn lives_in(x: &HomeOf, reg: u8) -> bool
    ensures { result ≡ spec.lives_in reg x.now }
{
    match x.home {
        Home::Hard { reg: hard } => hard == reg,
        Home::Slot => false,
    }
}

fn is_home(homes: &[HomeOf], reg: u8) -> bool
    ensures { result ≡ spec.is_home homes.now reg }
{
    homes.iter().any(|x| lives_in(x, reg))
}

fn add_if_home(homes: &[HomeOf], reg: u8, saved: &mut Items<u8>) -> Result<(), Memory>
    ensures { OnOk result (saved.new ≡ saved.old ++ filter (spec.is_home homes.now) (reg ∷ [])) }
{
    if is_home(homes, reg) {
        saved.push(reg)
    } else {
        Ok(())
    }
}

fn add_homes(homes: &[HomeOf], regs: &[u8], saved: &mut Items<u8>) -> Result<(), Memory>
    ensures { OnOk result (saved.new ≡ saved.old ++ filter (spec.is_home homes.now) regs.now) }
{
    for reg in regs {
        add_if_home(homes, *reg, saved)?;
    }
    Ok(())
}

fn add_return_address(insns: &[Insn], saved: &mut Items<u8>) -> Result<(), Memory>
    ensures { OnOk result (saved.new ≡ saved.old ++ spec.saved_for_calls insns.now) }
{
    if has_call(insns) {
        saved.push(RETURN_ADDRESS)
    } else {
        Ok(())
    }
}

/// The registers that are saved: `ra` where there is a call, then those of `s0` to `s11` that are
/// homes.
fn saved_of(alloc: Global, f: &Function, homes: &[HomeOf]) -> Result<Items<u8>, Memory>
    ensures value { IfOk result (λ saved. saved ≡ spec.saved_of f.now homes.now) }
    ensures few { IfOk result (λ saved. length saved < 2 ^ 32) }
{
    let mut saved = Items::new(alloc);
    add_return_address(f.insns.as_slice(), &mut saved)?;
    add_homes(homes, &saved_registers(), &mut saved)?;
    Ok(saved)
}

fn add_if_slot(x: &HomeOf, slots: &mut Items<u32>) -> Result<(), Memory>
    ensures { OnOk result (slots.new ≡ slots.old ++ spec.slot_of x.now) }
{
    match x.home {
        Home::Hard { .. } => Ok(()),
        Home::Slot => slots.push(x.pseudo),
    }
}

/// The pseudos that live in slots.
fn slots_of(alloc: Global, homes: &[HomeOf]) -> Result<Items<u32>, Memory>
    ensures { IfOk result (λ slots. slots ≡ spec.slots_of homes.now) }
{
    let mut slots = Items::new(alloc);
    for x in homes {
        add_if_slot(x, &mut slots)?;
    }
    Ok(slots)
}

/// The saved registers with their offsets, from `top` down.
fn place_saved(alloc: Global, regs: &[u8], top: u64) -> Result<SavedPlaces, Memory>
    requires { 8 * length regs.now ≤ top }
    ensures { IfOk result (λ places. places ≡ spec.saved_places top regs.now) }
{
    let mut places = Items::new(alloc);
    let mut offset = top;
    for reg in regs {
        offset -= 8;
        places.push(SavedAt { reg: *reg, offset })?;
    }
    Ok(places)
}

/// The slots with their offsets, from `top` down.
fn place_slots(alloc: Global, pseudos: &[u32], top: u64) -> Result<SlotPlaces, Memory>
    requires { 8 * length pseudos.now ≤ top }
    ensures { IfOk result (λ places. places ≡ spec.slot_places top pseudos.now) }
{
    let mut places = Items::new(alloc);
    let mut offset = top;
    for pseudo in pseudos {
        offset -= 8;
        places.push(SlotAt {
            pseudo: *pseudo,
            offset,
        })?;
    }
    Ok(places)
}

/// The layout of a frame with these locals, saved registers and slots.
fn layout_for(alloc: Global, locals: u32, saved: &[u8], slots: &[u32]) -> Result<Layout, Memory>
    requires saved { length saved.now < 2 ^ 32 }
    requires slots { length slots.now < 2 ^ 32 }
    ensures { IfOk result (λ layout. layout ≡ spec.layout_for locals saved.now slots.now) }
{
    let locals = u64::from(locals).next_multiple_of(8);
    let saved_size = 8 * saved.len() as u64;
    let slots_size = 8 * slots.len() as u64;
    let size = (locals + saved_size + slots_size).next_multiple_of(16);
    let top = size - locals;
    let slots = place_slots(alloc, slots, top - saved_size)?;
    let saved = place_saved(alloc, saved, top)?;
    Ok(Layout { size, slots, saved })
}

/// The layout of the frame of a function whose pseudos have these homes. 2^32 slots or more find no
/// memory.
pub fn layout(alloc: Global, f: &Function, homes: &Homes) -> Result<Layout, Memory>
    ensures value { IfOk result (λ layout. layout ≡ spec.layout_of f.now homes.now) }
    ensures frame { IfOk result (λ layout. spec.IsFrame f.now homes.now layout) }
{
    let saved = saved_of(alloc, f, homes.as_slice())?;
    let slots = slots_of(alloc, homes.as_slice())?;
    if slots.len() > u32::MAX as usize {
        return Err(Memory);
    }
    let layout = layout_for(alloc, f.locals, saved.as_slice(), slots.as_slice())?;
    Ok(layout)
}
