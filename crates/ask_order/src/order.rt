//! The order of all places.
ghost use Rattle.std.specs.Prelude.{IfOk};
ghost use Rattle.ask_order.specs.Order.{IsOrder};

use crate::search::go;
use plain_data::{Items, Memory};
use std::alloc::Global;

/// An order of places, of which each asks those in a list.
pub fn order_of(alloc: Global, asked: &[Items<usize>]) -> Result<Items<usize>, Memory>
    ensures { IfOk result (IsOrder asked.now) }
{
    let mut known = Vec::new(alloc);
    known.resize(asked.len(), false)?;
    let mut order = Items::new(alloc);
    for place in 0..asked.len() {
        go(alloc, asked, place, known.as_mut_slice(), &mut order)?;
    }
    Ok(order)
}
