//! The pair that is next.
ghost use Rattle.std.specs.Prelude.{◌≡◌, ◌<◌, ◌≤◌, ◌+◌, length, IfOk};
ghost use Rattle.rtx_tree.specs.Limit.{most_apart};
ghost use Rattle.combine.specs.Combine as spec;
ghost use Rattle.combine.specs.machine.Found as found;

use crate::link::{is_dead_behind, link_of};
use crate::made::made_of;
use crate::window::put_between;
use live_chain::LiveChain;
use md_desc::Description;
use plain_data::Memory;
use rtx_tree::{Insns, MOST_APART};
use std::alloc::Global;

/// A pair, and what is to stand in the place of its window.
#[derive(Drop)]
pub struct Pair {
    /// The place of the first.
    pub first: u32,
    /// The place of the second.
    pub second: u32,
    /// What is to stand in the place of the window from the first up to the second.
    pub new: Insns,
}

/// The place behind a place. One past 32 bits finds no memory.
pub fn behind(place: u32) -> Result<u32, Memory>
    ensures { IfOk result (λ end. end ≡ place + 1) }
{
    match place.checked_add(1) {
        Some(end) => Ok(end),
        None => Err(Memory),
    }
}

/// What is to stand in the place of the window of a pair, or `None` exactly where the two are not
/// combined.
fn tried(
    alloc: Global,
    desc: &Description,
    chain: &mut LiveChain,
    first: u32,
    second: u32,
) -> Result<Option<Insns>, Memory>
    requires order { first < second }
    requires near { second ≤ first + most_apart }
    requires within { second < length chain.old.insns }
    ensures pair { IfOk result (found.Tried desc.now chain.old first second) }
    ensures same { chain.new ≡ chain.old }
{
    let Some(link) = link_of(alloc, chain, first, second)? else {
        return Ok(None);
    };
    if !is_dead_behind(alloc, chain, second, link.register)? {
        return Ok(None);
    }
    let Some(x) = made_of(alloc, desc, chain, first, second, &link.path)? else {
        return Ok(None);
    };
    let end = behind(second)?;
    put_between(alloc, chain, first, end, x)
}

/// The pair with a second whose first stands last, or `None` exactly where there is none.
fn last_pair(
    alloc: Global,
    desc: &Description,
    chain: &mut LiveChain,
    second: u32,
) -> Result<Option<Pair>, Memory>
    requires { second < length chain.old.insns }
    ensures last { IfOk result (found.LastPair desc.now chain.old second) }
    ensures same { chain.new ≡ chain.old }
{
    let least = second.saturating_sub(MOST_APART);
    let mut first = second;
    while first > least {
        first -= 1;
        if let Some(new) = tried(alloc, desc, chain, first, second)? {
            return Ok(Some(Pair { first, second, new }));
        }
    }
    Ok(None)
}

/// The pair that is next, or `None` exactly where none is left. No second stands in front of a
/// place.
pub fn next_pair(
    alloc: Global,
    desc: &Description,
    chain: &mut LiveChain,
    from: u32,
) -> Result<Option<Pair>, Memory>
    requires { spec.NoneBefore desc.now chain.old from }
    ensures next { IfOk result (found.NextPair desc.now chain.old) }
    ensures same { chain.new ≡ chain.old }
{
    let mut second = from;
    while (second as usize) < chain.len() {
        if let Some(pair) = last_pair(alloc, desc, chain, second)? {
            return Ok(Some(pair));
        }
        second = behind(second)?;
    }
    Ok(None)
}
