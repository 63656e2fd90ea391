//! Windows of a chain that is a list with a gap, as one list.
ghost use Rattle.std.specs.Prelude.{◌≡◌, ◌≤◌, length, slice_range, IfOk};
ghost use Rattle.std.specs.Cow.{cow_slice_items};

use gap_list::GapList;
use plain_data::{Items, Memory};
use rtx_tree::{Insn, Insns};
use std::alloc::Global;
use std::borrow::CowSlice;

/// Copies of the instructions between two places, in order.
fn copied(alloc: Global, insns: &GapList<Insn>, first: usize, end: usize) -> Result<Insns, Memory>
    requires order { first ≤ end }
    requires within { end ≤ length insns.now }
    ensures { IfOk result (λ copies. copies ≡ slice_range insns.now first end) }
{
    let mut copies = Items::new(alloc);
    for at in first..end {
        copies.push(insns.item(at).copy(alloc)?)?;
    }
    Ok(copies)
}

/// The instructions between two places: lent where the gap doesn't stand before the last of them,
/// and else copied.
pub fn window_of(
    alloc: Global,
    insns: &GapList<Insn>,
    first: u32,
    end: u32,
) -> Result<CowSlice<'_, Insn>, Memory>
    requires order { first ≤ end }
    requires within { end ≤ length insns.now }
    ensures { IfOk result (λ window. cow_slice_items window ≡ slice_range insns.now first end) }
{
    match insns.between(first as usize, end as usize) {
        Some(lent) => Ok(CowSlice::Borrowed(lent)),
        None => {
            let copies = copied(alloc, insns, first as usize, end as usize)?;
            Ok(CowSlice::Owned(copies.into_vec()))
        }
    }
}
