//! Some ways with some others.
ghost use Rattle.std.specs.Prelude.{◌≡◌, IfOk};
ghost use Rattle.dfa_ways.specs.Ways as spec;

use crate::way::{Joint, Way, Ways, are_few, are_few_joined, joined};
use plain_data::{Items, Memory};
use std::alloc::Global;

/// The one way that takes no cycle.
pub fn no_cycle(alloc: Global) -> Result<Ways, Memory>
    ensures { IfOk result (λ ways. ways ≡ spec.no_cycle) }
{
    let mut ways = Items::new(alloc);
    ways.push(Items::new(alloc))?;
    Ok(ways)
}

/// The one way that takes some units in one cycle.
pub fn one_cycle(alloc: Global, units: u64) -> Result<Ways, Memory>
    ensures { IfOk result (λ ways. ways ≡ spec.one_cycle units) }
{
    let mut way = Items::new(alloc);
    way.push(units)?;
    let mut ways = Items::new(alloc);
    ways.push(way)?;
    Ok(ways)
}

/// A way with each of some others.
#[tactic(auto, using(md_text::proofs::Each::with_nothing, md_text::proofs::Each::each_next, md_text::proofs::Each::each_stops, md_text::proofs::Each::each_ends), unfolding(crate::specs::Ways::with_each))]
fn with_each(
    alloc: Global,
    how: Joint,
    others: &[Way],
    first: &[u64],
) -> Result<Option<Ways>, Memory>
    ensures { IfOk result (λ ways. ways ≡ spec.with_each how others.now first.now) }
{
    let mut ways = Items::new(alloc);
    for other in others {
        match joined(alloc, how, first, other.as_slice())? {
            Some(way) => ways.push(way)?,
            None => return Ok(None),
        }
    }
    Ok(Some(ways))
}

#[tactic(auto, using(md_text::proofs::Each::with_nothing, crate::proofs::JoinLaws::product_next, crate::proofs::JoinLaws::product_stops, crate::proofs::JoinLaws::product_ends))]
fn product(alloc: Global, how: Joint, first: &[Way], second: &[Way]) -> Result<Option<Ways>, Memory>
    ensures { IfOk result (λ ways. ways ≡ spec.product how first.now second.now) }
{
    let mut ways = Items::new(alloc);
    for way in first {
        match with_each(alloc, how, second, way.as_slice())? {
            Some(more) => ways = ways.append(more)?,
            None => return Ok(None),
        }
    }
    Ok(Some(ways))
}

/// Each of some ways with each of some others.
#[tactic(auto, unfolding(crate::specs::Ways::all_joined))]
pub fn all_joined(
    alloc: Global,
    how: Joint,
    first: &[Way],
    second: &[Way],
) -> Result<Option<Ways>, Memory>
    ensures { IfOk result (λ ways. ways ≡ spec.all_joined how first.now second.now) }
{
    if are_few_joined(first.len(), second.len()) {
        product(alloc, how, first, second)
    } else {
        Ok(None)
    }
}

/// Some ways beside some others.
#[tactic(auto, unfolding(crate::specs::Ways::one_of))]
pub fn one_of(first: Ways, second: Ways) -> Result<Option<Ways>, Memory>
    ensures { IfOk result (λ ways. ways ≡ spec.one_of first second) }
{
    if are_few(first.len(), second.len()) {
        Ok(Some(first.append(second)?))
    } else {
        Ok(None)
    }
}

/// So many times the same ways, one behind the other.
#[tactic(auto, using(crate::proofs::JoinLaws::repeated_next, crate::proofs::JoinLaws::repeated_stops, crate::proofs::JoinLaws::repeated_ends))]
pub fn repeated(alloc: Global, count: u32, ways: &[Way]) -> Result<Option<Ways>, Memory>
    ensures { IfOk result (λ all. all ≡ spec.repeated count spec.no_cycle ways.now) }
{
    let mut all = no_cycle(alloc)?;
    for _time in 0..count {
        match all_joined(alloc, Joint::Behind, all.as_slice(), ways)? {
            Some(longer) => all = longer,
            None => return Ok(None),
        }
    }
    Ok(Some(all))
}
