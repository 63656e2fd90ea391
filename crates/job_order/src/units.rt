//! Units that are taken in cycles. In the cycles behind those of a list none is.
ghost use Rattle.std.specs.Prelude.{◌≡◌, ◌+◌, ◌-◌, ◌<◌, ◌^◌, ◌++◌, length, max, option_map, replicate, IfOk};
ghost use Rattle.job_order.specs.Slots as spec;

use dfa_ways::Way;
use plain_data::{Items, Memory};

/// Whether no unit stands in both, in the same cycle.
#[tactic(auto, using(crate::proofs::UnitLaws::apart_next, crate::proofs::UnitLaws::apart_not, crate::proofs::UnitLaws::apart_ends))]
fn are_apart(taken: &[u64], way: &[u64]) -> bool
    ensures { result ≡ spec.are_apart taken.now way.now }
{
    let common = taken.len().min(way.len());
    for at in 0..common {
        if taken[at] & way[at] != 0 {
            return false;
        }
    }
    true
}

/// Whether a way from a cycle on takes no unit that is taken.
#[tactic(auto, using(crate::proofs::UnitLaws::free_past))]
fn is_free(taken: &[u64], cycle: usize, way: &[u64]) -> bool
    ensures { result ≡ spec.is_free taken.now cycle way.now }
{
    if cycle < taken.len() {
        are_apart(&taken[cycle..], way)
    } else {
        true
    }
}

/// The first way that is free from a cycle on.
pub fn free_way<'a>(taken: &[u64], cycle: usize, ways: &'a [Way]) -> Option<&'a Way>
    ensures { option_map (λ way. way.now) result ≡ spec.free_way taken.now cycle ways.now }
{
    for way in ways {
        if is_free(taken, cycle, way.as_slice()) {
            return Some(way);
        }
    }
    None
}

/// Units that are taken, with cycles behind them in which none is, up to so many cycles.
fn with_cycles(taken: Items<u64>, count: usize) -> Result<Items<u64>, Memory>
    ensures items { IfOk result (λ all.
        all ≡ taken ++ replicate (length all - length taken) 0) }
    ensures len { IfOk result (λ all. length all ≡ max (length taken) count) }
{
    let mut all = taken;
    while all.len() < count {
        all.push(0)?;
    }
    Ok(all)
}

/// Units that are taken, with a way from a cycle on.
#[tactic(auto, using(crate::proofs::UnitLaws::way_ends))]
pub fn taken_from(taken: Items<u64>, cycle: usize, way: &[u64]) -> Result<Items<u64>, Memory>
    requires { cycle + length way.now < 2 ^ 64 }
    ensures { IfOk result (λ all. all ≡ spec.taken_from taken cycle way.now) }
{
    let mut all = with_cycles(taken, cycle + way.len())?;
    for (offset, units) in way.iter().enumerate() {
        let old = *all.item(cycle + offset);
        all.replace(cycle + offset, old | *units);
    }
    Ok(all)
}
