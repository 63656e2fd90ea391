//! What conditions know of a window.
ghost use Rattle.std.specs.Prelude.{◌≡◌, ℕ, ◌+◌, ◌<◌, ◌^◌, ◌==◌, ◌||◌, ◌&&◌, not, IfOk, OnOk};
ghost use Rattle.rtx_tree.specs.RegSet.{has_reg};
ghost use Rattle.peep2.specs.Rewrite as spec;

use c_eval::{DeadTable, Facts};
use live_chain::LiveChain;
use plain_data::{Items, Memory};
use rtx_tree::RegSet;
use std::alloc::Global;

/// How many hard registers there are.
const HARD_REGISTERS: u32 = 32;

/// Puts a register into a set, unless it is live.
fn add_dead(dead: &mut RegSet, reg: u32, is_live: bool) -> Result<(), Memory>
    ensures { OnOk result ((other : ℕ) → has_reg dead.new other
        ≡ (has_reg dead.old other || (not is_live && other == reg))) }
{
    if is_live { Ok(()) } else { dead.insert(reg) }
}

/// The hard registers that are dead right before a place.
fn dead_before(alloc: Global, chain: &mut LiveChain, place: u32) -> Result<RegSet, Memory>
    ensures dead { IfOk result (spec.AreDeadBefore chain.old place) }
    ensures same { chain.new ≡ chain.old }
{
    let mut dead = RegSet::new(alloc);
    for reg in 0..HARD_REGISTERS {
        let is_live = chain.is_live_before(alloc, place, reg)?;
        add_dead(&mut dead, reg, is_live)?;
    }
    // asked for what it tells of the order of the set
    let _first = dead.contains(0);
    Ok(dead)
}

/// The hard registers that are dead after a place.
fn dead_after(alloc: Global, chain: &mut LiveChain, place: u32) -> Result<RegSet, Memory>
    ensures dead { IfOk result (spec.AreDeadAfter chain.old place) }
    ensures same { chain.new ≡ chain.old }
{
    let live = chain.live_after(alloc, place)?;
    let mut dead = RegSet::new(alloc);
    for reg in 0..HARD_REGISTERS {
        add_dead(&mut dead, reg, live.contains(reg))?;
    }
    // asked for what it tells of the order of the set
    let _first = dead.contains(0);
    Ok(dead)
}

/// The registers that are dead right before each instruction of a window, and behind it.
fn dead_in(
    alloc: Global,
    chain: &mut LiveChain,
    place: u32,
    count: u32,
) -> Result<DeadTable, Memory>
    requires some { 0 < count }
    requires small { place + count < 2 ^ 32 }
    ensures dead { IfOk result (spec.AreDeadIn chain.old place count) }
    ensures same { chain.new ≡ chain.old }
{
    let mut dead = Items::new(alloc);
    for point in 0..count {
        let regs = dead_before(alloc, chain, place + point)?;
        dead.push(regs)?;
    }
    let regs_behind = dead_after(alloc, chain, place + count - 1)?;
    dead.push(regs_behind)?;
    Ok(dead)
}

/// What conditions know of a window of so many instructions.
pub fn facts_at(
    alloc: Global,
    chain: &mut LiveChain,
    place: u32,
    count: u32,
) -> Result<Facts, Memory>
    requires some { 0 < count }
    requires small { place + count < 2 ^ 32 }
    ensures known { IfOk result (spec.AreFactsAt chain.old place count) }
    ensures same { chain.new ≡ chain.old }
{
    let dead = dead_in(alloc, chain, place, count)?;
    Ok(Facts {
        reloaded: true,
        new_pseudos: false,
        dead,
    })
}
