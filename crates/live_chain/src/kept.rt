//! Rows that are kept where a window is replaced.
ghost use Rattle.std.specs.Prelude.{◌≡◌, ◌+◌, ◌^◌, ◌<◌, ◌≤◌, true, length, slice_range, IfOk, IfSome, IsSome, MatchOption};
ghost use Rattle.std.specs.List.{splice};
ghost use Rattle.rtx_tree.specs.declared.function.Function.{Function};
ghost use Rattle.reg_rows.specs.Row.{has};
ghost use Rattle.live.specs.Live.{AreLiveRows};
ghost use Rattle.live_chain.specs.Narrow.{AreNarrow};
ghost use Rattle.live_chain.specs.Rows.{AreRowsFor};
ghost use Rattle.live_chain.specs.machine.Window.{AreLikeEnds, AreFound};

use crate::behind::row_after;
use crate::demand::differing_between;
use crate::lent::window_of;
use crate::sets::same_sets;
use crate::settled::{tail_end, unsettled};
use crate::wide::block_to;
use crate::window::{leads_last, same_flow};
use crate::within::rows_within;
use gap_list::GapList;
use plain_data::{Items, Memory};
use reg_rows::RegRow;
use rtx_tree::Insn;
use std::alloc::Global;

/// Whether two windows are seen to be entered and left alike.
fn are_like_ends(old: &[Insn], new: &[Insn]) -> bool
    ensures { result ≡ true → AreLikeEnds old.now new.now }
{
    leads_last(old) && leads_last(new) && same_flow(old, new) && same_sets(old, new)
}

/// The rows of what is live before the places from one on, up to the end of a window.
#[derive(Drop)]
pub struct WindowRows {
    pub from: u32,
    pub rows: Items<RegRow>,
}

/// The rows of instructions in the place of a window, and of those in front of it from where on
/// both ask alike, if there are such.
fn rows_from(
    alloc: Global,
    insns: &GapList<Insn>,
    first: u32,
    end: u32,
    old: &[Insn],
    new: &[Insn],
    behind: &RegRow,
) -> Result<Option<WindowRows>, Memory>
    requires order { first ≤ end }
    requires within { end ≤ length insns.now }
    requires short { length insns.now < 2 ^ 32 }
    requires narrow { length behind.now ≤ 2 ^ 26 }
    ensures { IfOk result (λ inside. IfSome inside (AreFound insns.now first end old.now new.now (has behind.now))) }
{
    let differing = differing_between(alloc, old, new, behind)?;
    let to = tail_end(insns, end, old, new);
    let left = unsettled(alloc, insns, end, to, old, new, differing.as_slice())?;
    let Some(from) = block_to(alloc, insns, first, left)? else {
        return Ok(None);
    };
    let front = window_of(alloc, insns, from, first)?;
    let rows = rows_within(alloc, front.as_slice(), new, behind)?;
    Ok(Some(WindowRows { from, rows }))
}

/// The rows of instructions in the place of a window, if the rows outside it, and outside what
/// stands in front of it up to where both ask alike, are seen to stay as they are.
fn rows_for(
    alloc: Global,
    insns: &GapList<Insn>,
    rows: &GapList<RegRow>,
    first: u32,
    end: u32,
    old: &[Insn],
    new: &[Insn],
) -> Result<Option<WindowRows>, Memory>
    requires order { first ≤ end }
    requires within { end ≤ length insns.now }
    requires old { old.now ≡ slice_range insns.now first end }
    requires narrow { AreNarrow rows.now }
    ensures made { (f : Function) → f.insns ≡ insns.now → AreLiveRows f rows.now →
        IfOk result (λ inside. IfSome inside (AreRowsFor f first end new.now)) }
    ensures order { IfOk result (λ inside. IfSome inside (λ inside. inside.from ≤ first)) }
{
    if first == end || insns.len() > u32::MAX as usize || !are_like_ends(old, new) {
        return Ok(None);
    }
    let behind = row_after(alloc, insns, rows, end - 1)?;
    rows_from(alloc, insns, first, end, old, new, &behind)
}

/// The rows of instructions in the place of a window, if the function's rows are known.
pub fn rows_inside(
    alloc: Global,
    insns: &GapList<Insn>,
    rows: &Option<GapList<RegRow>>,
    first: u32,
    end: u32,
    old: &[Insn],
    new: &[Insn],
) -> Result<Option<WindowRows>, Memory>
    requires order { first ≤ end }
    requires within { end ≤ length insns.now }
    requires old { old.now ≡ slice_range insns.now first end }
    requires narrow { IfSome rows.now AreNarrow }
    ensures made { (f : Function) → f.insns ≡ insns.now → IfSome rows.now (AreLiveRows f) →
        IfOk result (λ inside. IfSome inside (AreRowsFor f first end new.now)) }
    ensures order { IfOk result (λ inside. IfSome inside (λ inside. inside.from ≤ first)) }
{
    match rows {
        Some(rows) => rows_for(alloc, insns, rows, first, end, old, new),
        None => Ok(None),
    }
}

/// The place in front of which what is live is seen to stay.
pub fn same_to(inside: &Option<WindowRows>) -> u32
    ensures { MatchOption inside.now (result ≡ 0) (λ inside. result ≡ inside.from) }
{
    match inside {
        Some(inside) => inside.from,
        None => 0,
    }
}

/// Whether what is live in front of a window is seen to stay.
pub fn is_same_before(first: u32, inside: &Option<WindowRows>) -> bool
    ensures { result ≡ true → IsSome inside.now × (IfSome inside.now (λ inside. inside.from ≡ first)) }
{
    match inside {
        Some(inside) => inside.from == first,
        None => false,
    }
}

/// The rows with others in the place of a window's, if both are known. Where memory runs out they
/// are no longer known.
pub fn rows_joined(
    rows: Option<GapList<RegRow>>,
    end: u32,
    inside: Option<WindowRows>,
) -> Option<GapList<RegRow>>
    requires order { IfSome inside (λ inside. inside.from ≤ end) }
    requires within { IfSome rows (λ rows. end ≤ length rows) }
    ensures { (f : Function) →
        IfSome inside (λ inside. IfSome rows (λ rows.
        AreLiveRows f (splice rows inside.from end inside.rows))) →
        IfSome result (AreLiveRows f) }
{
    let mut rows = rows?;
    let WindowRows { from, rows: inside } = inside?;
    match rows.splice(from as usize, end as usize, inside) {
        Ok(()) => Some(rows),
        Err(_) => None,
    }
}

/// Moves the gap of the rows to a place, if they are known.
pub fn move_rows(rows: &mut Option<GapList<RegRow>>, place: u32) -> Result<(), Memory>
    requires { IfSome rows.old (λ rows. place ≤ length rows) }
    ensures { rows.new ≡ rows.old }
{
    match rows {
        Some(rows) => rows.move_gap(place as usize),
        None => Ok(()),
    }
}

/// The rows with others in the place of a window's, which are as many or fewer, if both are known.
/// It takes no memory.
pub fn rows_put(
    rows: Option<GapList<RegRow>>,
    end: u32,
    inside: Option<WindowRows>,
) -> Option<GapList<RegRow>>
    requires shorter { IfSome inside (λ inside. inside.from + length inside.rows ≤ end) }
    requires within { IfSome rows (λ rows. end ≤ length rows) }
    ensures { (f : Function) →
        IfSome inside (λ inside. IfSome rows (λ rows.
        AreLiveRows f (splice rows inside.from end inside.rows))) →
        IfSome result (AreLiveRows f) }
{
    let mut rows = rows?;
    let WindowRows { from, rows: inside } = inside?;
    rows.put_within(from as usize, end as usize, inside);
    Some(rows)
}
