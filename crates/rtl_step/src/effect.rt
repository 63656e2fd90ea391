//! What an instruction does to registers and memory.
ghost use Rattle.std.specs.Prelude.{◌≡◌, IfOk, OnOk, OnErr, option_copied};
ghost use Rattle.rtl_step.specs.Effect as spec;

use crate::expression::{value, width_of};
use crate::regs::{Known, Regs};
use bits64::{Width, trunc};
use plain_data::{Items, Memory};
use rtx_tree::{Code, Memories, Rtx, Symbols};
use run_memory::{load, store};
use std::alloc::Global;

/// What one part of an instruction does, its values and addresses taken.
#[derive(Clone, Copy)]
pub enum Effect {
    /// Nothing.
    Nothing,
    /// A register is set.
    Sets {
        /// The register's number.
        reg: u64,
        /// What is known of it then.
        known: Known,
    },
    /// A register is unset.
    Unsets {
        /// The register's number.
        reg: u64,
    },
    /// Memory is written.
    Stores {
        /// How many bits.
        w: Width,
        /// Where.
        at: u64,
        /// The bits.
        value: u64,
    },
}

fn inner_register(x: &Rtx) -> Option<u64>
    ensures { result ≡ spec.inner_register x.now }
{
    match x.code {
        Code::Reg => Some(x.number.cast_unsigned()),
        _ => None,
    }
}

/// The register that is a place to be set: itself, or that of which it is a lowpart; `None` where
/// it is no such place.
pub fn register_of(x: &Rtx) -> Option<u64>
    ensures { result ≡ spec.register_of x.now }
{
    match (x.code, x.kids.as_slice()) {
        (Code::Reg, _) => Some(x.number.cast_unsigned()),
        (Code::Subreg, [inner]) => inner_register(inner),
        _ => None,
    }
}

/// The address of a place in memory, or `None` where it is no such place.
pub fn address_of(x: &Rtx) -> Option<&Rtx>
    ensures { option_copied result ≡ spec.address_of x.now }
{
    match (x.code, x.kids.as_slice()) {
        (Code::Mem, [address]) => Some(address),
        _ => None,
    }
}

fn set_register(
    symbols: &Symbols,
    regs: &Regs,
    memory: &Memories,
    place: &Rtx,
    source: &Rtx,
    w: Width,
) -> Option<Effect>
    ensures { result ≡ spec.set_register symbols.now regs.now memory.now place.now source.now w }
{
    let reg = register_of(place)?;
    let value = trunc(value(symbols, regs, memory, source, w)?, w);
    Some(Effect::Sets {
        reg,
        known: Known { width: w, value },
    })
}

fn set_memory(
    symbols: &Symbols,
    regs: &Regs,
    memory: &Memories,
    address: &Rtx,
    source: &Rtx,
    w: Width,
) -> Option<Effect>
    ensures { result ≡ spec.set_memory symbols.now regs.now memory.now address.now source.now w }
{
    let at = value(symbols, regs, memory, address, Width::W64)?;
    let value = value(symbols, regs, memory, source, w)?;
    if load(memory, w, at).is_some() {
        Some(Effect::Stores { w, at, value })
    } else {
        None
    }
}

fn set_effect(
    symbols: &Symbols,
    regs: &Regs,
    memory: &Memories,
    place: &Rtx,
    source: &Rtx,
) -> Option<Effect>
    ensures { result ≡ spec.set_effect symbols.now regs.now memory.now place.now source.now }
{
    let w = width_of(place.mode)?;
    match address_of(place) {
        None => set_register(symbols, regs, memory, place, source, w),
        Some(address) => set_memory(symbols, regs, memory, address, source, w),
    }
}

fn clobber_effect(place: &Rtx) -> Option<Effect>
    ensures { result ≡ spec.clobber_effect place.now }
{
    match place.code {
        Code::Mem | Code::Scratch => Some(Effect::Nothing),
        _ => Some(Effect::Unsets {
            reg: register_of(place)?,
        }),
    }
}

fn effect_of(symbols: &Symbols, regs: &Regs, memory: &Memories, x: &Rtx) -> Option<Effect>
    ensures { result ≡ spec.effect_of symbols.now regs.now memory.now x.now }
{
    match (x.code, x.kids.as_slice()) {
        (Code::Set, [place, source]) => set_effect(symbols, regs, memory, place, source),
        (Code::Use, [_]) => Some(Effect::Nothing),
        (Code::Clobber, [place]) => clobber_effect(place),
        _ => None,
    }
}

/// Each part's effect, all by one state, or `None` where a part has none.
fn all_effects(
    alloc: Global,
    symbols: &Symbols,
    regs: &Regs,
    memory: &Memories,
    parts: &[Rtx],
) -> Result<Option<Items<Effect>>, Memory>
    ensures { IfOk result (λ effects.
        effects ≡ spec.all_effects symbols.now regs.now memory.now parts.now) }
{
    let mut effects = Items::new(alloc);
    for part in parts {
        match effect_of(symbols, regs, memory, part) {
            None => return Ok(None),
            Some(effect) => effects.push(effect)?,
        }
    }
    Ok(Some(effects))
}

fn one_effect(
    alloc: Global,
    symbols: &Symbols,
    regs: &Regs,
    memory: &Memories,
    x: &Rtx,
) -> Result<Option<Items<Effect>>, Memory>
    ensures { IfOk result (λ effects.
        effects ≡ spec.one_effect symbols.now regs.now memory.now x.now) }
{
    match effect_of(symbols, regs, memory, x) {
        None => Ok(None),
        Some(effect) => {
            let mut effects = Items::new(alloc);
            effects.push(effect)?;
            Ok(Some(effects))
        }
    }
}

/// The effects of an instruction that goes on to the next, or `None` where a value or address has
/// none.
pub fn effects_of(
    alloc: Global,
    symbols: &Symbols,
    regs: &Regs,
    memory: &Memories,
    x: &Rtx,
) -> Result<Option<Items<Effect>>, Memory>
    ensures { IfOk result (λ effects.
        effects ≡ spec.effects_of symbols.now regs.now memory.now x.now) }
{
    match x.code {
        Code::Parallel => all_effects(alloc, symbols, regs, memory, x.kids.as_slice()),
        _ => one_effect(alloc, symbols, regs, memory, x),
    }
}

fn change_register(regs: &mut Regs, effect: Effect) -> Result<(), Memory>
    ensures ok { OnOk result (regs.new ≡ spec.reg_after effect regs.old) }
    ensures err { OnErr result (regs.new ≡ regs.old) }
{
    match effect {
        Effect::Sets { reg, known } => regs.set(reg, known),
        Effect::Unsets { reg } => {
            regs.unset(reg);
            Ok(())
        }
        _ => Ok(()),
    }
}

fn changed_copy(regs: &Regs, effects: &[Effect]) -> Result<Regs, Memory>
    ensures { IfOk result (λ after. after ≡ spec.regs_after effects.now regs.now) }
{
    let mut after = regs.copy()?;
    for effect in effects {
        change_register(&mut after, *effect)?;
    }
    Ok(after)
}

/// Makes effects on registers, in order. After `Memory` all is as before: where there are several,
/// they are made on a copy.
pub fn change_registers(regs: &mut Regs, effects: &[Effect]) -> Result<(), Memory>
    ensures ok { OnOk result (regs.new ≡ spec.regs_after effects.now regs.old) }
    ensures err { OnErr result (regs.new ≡ regs.old) }
{
    match effects {
        [] => Ok(()),
        [effect] => change_register(regs, *effect),
        _ => {
            *regs = changed_copy(regs, effects)?;
            Ok(())
        }
    }
}

fn change_bytes(memory: &mut Memories, effect: Effect)
    ensures { memory.new ≡ spec.bytes_after effect memory.old }
{
    if let Effect::Stores { w, at, value } = effect {
        store(memory, w, at, value);
    }
}

/// Makes effects on memory, in order.
pub fn change_memory(memory: &mut Memories, effects: &[Effect])
    ensures { memory.new ≡ spec.memory_after effects.now memory.old }
{
    for effect in effects {
        change_bytes(memory, *effect);
    }
}
