//! The registers of slots.
ghost use Rattle.std.specs.Prelude.{◌≡◌, IfOk, slice_set};
ghost use Rattle.lint_choices.specs.Registers as spec;

use crate::change::Change;
use plain_data::{Items, Memory};
use std::alloc::Global;

/// The register of a slot for which none is left.
const ARGUMENT: u8 = 10;

fn is_free(given: &[u8], reg: u8) -> bool
    ensures { result ≡ spec.is_free given.now reg }
{
    for other in given {
        if *other == reg {
            return false;
        }
    }
    true
}

/// The first of a slot's own registers that no other has.
pub fn slot_register(given: &[u8], own: &[u8]) -> u8
    ensures { result ≡ spec.slot_register given.now own.now }
{
    for reg in own {
        if is_free(given, *reg) {
            return *reg;
        }
    }
    ARGUMENT
}

/// The registers of slots, by those that each may have, each apart from those before it.
pub fn registers_apart(alloc: Global, owns: &[Items<u8>]) -> Result<Items<u8>, Memory>
    ensures { IfOk result (λ regs. regs ≡ spec.registers_apart owns.now) }
{
    let mut regs = Items::new(alloc);
    for own in owns {
        regs.push(slot_register(regs.as_slice(), own.as_slice()))?;
    }
    Ok(regs)
}

/// The register of a slot.
fn register_at(regs: &[u8], slot: usize) -> u8
    ensures { result ≡ spec.register_at regs.now slot }
{
    match regs.get(slot) {
        Some(reg) => *reg,
        None => ARGUMENT,
    }
}

/// As many slots, which all have one register.
fn all_same(alloc: Global, regs: &[u8], reg: u8) -> Result<Items<u8>, Memory>
    ensures { IfOk result (λ same. same ≡ spec.all_same reg regs.now) }
{
    let mut same = Items::new(alloc);
    for slot in regs {
        let _ = slot;
        same.push(reg)?;
    }
    Ok(same)
}

/// The slots, of which the second of two has the register of the first.
fn with_shared(alloc: Global, regs: &[u8], first: usize, second: usize) -> Result<Items<u8>, Memory>
    ensures { IfOk result (λ shared.
        shared ≡ slice_set regs.now second (spec.register_at regs.now first)) }
{
    let mut shared = Items::from_slice(alloc, regs)?;
    if second < shared.len() {
        shared.replace(second, register_at(regs, first));
    }
    Ok(shared)
}

/// The registers of slots in a choice.
pub fn registers_in(alloc: Global, change: Change, regs: &[u8]) -> Result<Items<u8>, Memory>
    ensures { IfOk result (λ given. given ≡ spec.registers_in change regs.now) }
{
    match change {
        Change::Shared { first, second } => with_shared(alloc, regs, first, second),
        Change::Every => all_same(alloc, regs, register_at(regs, 0)),
        Change::Itself | Change::One { .. } | Change::Two { .. } => {
            Items::from_slice(alloc, regs)
        }
    }
}
