//! The registers that are live at each place of a function.
//!
//! [`live_rows_of`] gives for each place of the chain, and at last for its end, the row of the
//! registers that are live before it: those that a path of successors leads from there to a use of,
//! without a definition between. The rows have exactly these registers; both directions are proved.
//! [`live_after`] gives the registers that are live after one place, by the rows of the places to
//! which it leads.
#![tactic(auto)]

mod after;
mod nodes;
mod sets;

ghost use Rattle.std.specs.Prelude.{IfOk};
ghost use Rattle.live.specs.Live.{AreLiveRows, HaveRoom};

pub use crate::after::{live_after, live_after_by};
use crate::nodes::nodes_of;
use live_rows::live_rows;
use plain_data::Memory;
use reg_rows::RegRow;
use rtx_tree::Function;
use std::alloc::Global;

/// The rows of the registers that are live before each place of the function's chain, and at last
/// before its end. They are of one width, with room for each register that the function uses or
/// defines. A chain of 2^32 places or more finds no memory.
pub fn live_rows_of(alloc: Global, f: &Function) -> Result<Vec<RegRow>, Memory>
    ensures live { IfOk result (λ rows. AreLiveRows f.now rows.items) }
    ensures room { IfOk result (λ rows. HaveRoom f.now rows.items) }
{
    if f.insns.len() > u32::MAX as usize {
        return Err(Memory);
    }
    let nodes = nodes_of(alloc, f)?;
    let rows = live_rows(alloc, nodes.as_slice())?;
    Ok(rows)
}
