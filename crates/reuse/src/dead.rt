//! Dead sets.
ghost use Rattle.std.specs.Prelude.{◌≡◌, ◌<◌, true, false, length, IfOk};
ghost use Rattle.reuse.specs.Reuse as spec;
ghost use Rattle.reuse.specs.machine.Found as found;

use crate::search::behind;
use insn_fuse::set_of;
use live_chain::LiveChain;
use plain_data::Memory;
use std::alloc::Global;

/// Whether a dead set stands at a place.
fn is_dead_set(alloc: Global, chain: &mut LiveChain, place: u32) -> Result<bool, Memory>
    requires { place < length chain.old.insns }
    ensures dead { IfOk result (λ dead. dead ≡ true → spec.IsDeadSet chain.old place) }
    ensures other { IfOk result (λ dead. dead ≡ false → spec.IsDeadSet chain.old place → ⊥) }
    ensures same { chain.new ≡ chain.old }
{
    let Some(register) = set_of(chain.insn(place)) else {
        return Ok(false);
    };
    let live = chain.is_live_after(alloc, place, register)?;
    Ok(!live)
}

/// The place of the first dead set, or `None` exactly where there is none. None stands in front of
/// place `from`.
pub fn first_dead(alloc: Global, chain: &mut LiveChain, from: u32) -> Result<Option<u32>, Memory>
    requires { found.NoneDeadBefore chain.old from }
    ensures first { IfOk result (found.FirstDead chain.old) }
    ensures same { chain.new ≡ chain.old }
{
    let mut place = from;
    while (place as usize) < chain.len() {
        if is_dead_set(alloc, chain, place)? {
            return Ok(Some(place));
        }
        place = behind(place)?;
    }
    Ok(None)
}
