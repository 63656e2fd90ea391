//! Pairs of instructions of which the second reads what the first sets.
ghost use Rattle.std.specs.Prelude.{◌≡◌, ◌<◌, ◌≤◌, ℕ, true, false, length, Some, slice_get, IfOk};
ghost use Rattle.rtx_tree.specs.declared.function.Insn.{Insn};
ghost use Rattle.combine.specs.Combine as spec;
ghost use Rattle.combine.specs.machine.Found as found;

use form_needs::is_kind;
use insn_fuse::{set_of, use_of};
use live_chain::LiveChain;
use plain_data::Memory;
use reg_uses::{does_define, does_use};
use rtx_tree::{Insn, Kind, Path};
use std::alloc::Global;

/// By which a second instruction reads what a first sets.
#[derive(Drop)]
pub struct Link {
    /// The pseudo register that the first sets.
    pub register: u32,
    /// The one path at which the second reads it.
    pub path: Path,
}

fn stands_between(kind: Kind) -> bool
    ensures { result ≡ spec.stands_between kind }
{
    matches!(kind, Kind::Plain | Kind::Barrier)
}

/// Whether an instruction leaves a register alone, and leads on to the next.
fn passes(insn: &Insn, reg: u32) -> bool
    ensures { result ≡ spec.passes reg insn.now }
{
    stands_between(insn.kind) && !does_use(insn, reg) && !does_define(insn, reg)
}

/// Whether what stands between two places leaves a register alone.
fn pass_between(chain: &LiveChain, first: u32, second: u32, reg: u32) -> bool
    requires order { first < second }
    requires within { second < length chain.now.insns }
    ensures all { result ≡ true → spec.PassesBetween chain.now first second reg }
    ensures none { result ≡ false → spec.PassesBetween chain.now first second reg → ⊥ }
{
    let mut place = first + 1;
    while place < second {
        if !passes(chain.insn(place), reg) {
            return false;
        }
        place += 1;
    }
    true
}

/// By which the instruction at a second place reads what the one at a first sets, or `None` exactly
/// where it does not.
pub fn link_of(
    alloc: Global,
    chain: &LiveChain,
    first: u32,
    second: u32,
) -> Result<Option<Link>, Memory>
    requires order { first < second }
    requires within { second < length chain.now.insns }
    ensures { IfOk result (found.Linked chain.now first second) }
{
    let Some(register) = set_of(chain.insn(first)) else {
        return Ok(None);
    };
    let other = chain.insn(second);
    if !is_kind(other.kind) {
        return Ok(None);
    }
    // asked first, as it takes no memory, and of most pairs the second uses none of the first's
    if !does_use(other, register) {
        return Ok(None);
    }
    let Some(path) = use_of(alloc, &other.pattern, register)? else {
        return Ok(None);
    };
    if pass_between(chain, first, second, register) {
        Ok(Some(Link { register, path }))
    } else {
        Ok(None)
    }
}

/// Whether a register is dead behind a place, or the instruction there sets it.
pub fn is_dead_behind(
    alloc: Global,
    chain: &mut LiveChain,
    place: u32,
    reg: u32,
) -> Result<bool, Memory>
    requires { place < length chain.old.insns }
    ensures dead { IfOk result (λ dead. dead ≡ true → spec.IsDeadBehind chain.old reg place) }
    ensures live { IfOk result (λ dead. dead ≡ false → spec.IsDeadBehind chain.old reg place → ⊥) }
    ensures same { chain.new ≡ chain.old }
{
    if does_define(chain.insn(place), reg) {
        return Ok(true);
    }
    let live = chain.is_live_after(alloc, place, reg)?;
    Ok(!live)
}
