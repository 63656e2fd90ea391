//! Ways that are copied.
ghost use Rattle.std.specs.Prelude.{◌≡◌, IfOk};
ghost use Rattle.dfa_ways.specs.Ways.{no_cycle};

use dfa_ways::{Way, Ways};
use plain_data::{Items, Memory};
use std::alloc::Global;

/// Ways, once more.
pub fn copied(alloc: Global, ways: &[Way]) -> Result<Ways, Memory>
    ensures { IfOk result (λ copies. copies ≡ ways.now) }
{
    let mut copies = Items::new(alloc);
    for way in ways {
        copies.push(Items::from_slice(alloc, way.as_slice())?)?;
    }
    Ok(copies)
}

/// The one way that takes no cycle.
pub fn no_units(alloc: Global) -> Result<Ways, Memory>
    ensures { IfOk result (λ ways. ways ≡ no_cycle) }
{
    let mut ways = Items::new(alloc);
    ways.push(Items::new(alloc))?;
    Ok(ways)
}
