//! The registers that are live after a place.
ghost use Rattle.std.specs.Prelude.{◌≡◌, ◌<◌, ◌≤◌, ◌^◌, ℕ, ◌||◌, IfOk, OnOk, length, All};
ghost use Rattle.std.specs.Ordering.{nat_cmp};
ghost use Rattle.std.specs.BTreeMap as map;
ghost use Rattle.rtx_tree.specs.Patterns.{place_of};
ghost use Rattle.rtx_tree.specs.RegSet.{has_reg};
ghost use Rattle.live_rows.specs.machine.Rows.{at_place};
ghost use Rattle.rtx_tree.specs.declared.function.Function.{Function};
ghost use Rattle.rtl_func.specs.Successors.{places_in, successors_of};
ghost use Rattle.live.specs.Live.{AreLiveAfter, AreLiveRows};

use crate::sets::add_row;
use plain_data::Memory;
use reg_rows::RegRow;
use rtl_func::{Labels, Successors, successors, successors_by};
use rtx_tree::{Function, RegSet};
use std::alloc::Global;

/// Adds the registers of the row of a place, if it is one.
fn add_place(rows: &[RegRow], place: Option<u32>, set: &mut RegSet) -> Result<(), Memory>
    requires { All (λ row. length row ≤ 2 ^ 26) rows.now }
    ensures { OnOk result ((reg : ℕ) →
        has_reg set.new reg ≡ (has_reg set.old reg || at_place place rows.now reg)) }
{
    let Some(place) = place else {
        return Ok(());
    };
    match rows.get(place as usize) {
        Some(row) => add_row(row, set),
        None => Ok(()),
    }
}

/// The registers that are live at the places to which an instruction leads.
fn live_at(alloc: Global, rows: &[RegRow], next: Successors) -> Result<RegSet, Memory>
    requires { All (λ row. length row ≤ 2 ^ 26) rows.now }
    ensures { (f : Function) (place : ℕ) → AreLiveRows f rows.now →
        places_in next ≡ successors_of f.insns place →
        IfOk result (AreLiveAfter f place) }
{
    let mut set = RegSet::new(alloc);
    add_place(rows, next.first, &mut set)?;
    add_place(rows, next.second, &mut set)?;
    // asked for what it tells of the order of the set
    let _first = set.contains(0);
    Ok(set)
}

/// The registers that are live after a place of the function's chain, by the rows of what is live
/// before each. A chain of 2^32 places or more finds no memory.
pub fn live_after(
    alloc: Global,
    f: &Function,
    rows: &[RegRow],
    place: u32,
) -> Result<RegSet, Memory>
    requires { AreLiveRows f.now rows.now }
    ensures { IfOk result (AreLiveAfter f.now place) }
{
    if f.insns.len() > u32::MAX as usize {
        return Err(Memory);
    }
    live_at(alloc, rows, successors(f, place))
}

/// The registers that are live after a place, as [`live_after`] gives them, with the places of the
/// labels known.
pub fn live_after_by(
    alloc: Global,
    f: &Function,
    labels: &Labels,
    rows: &[RegRow],
    place: u32,
) -> Result<RegSet, Memory>
    requires short { length f.now.insns < 2 ^ 32 }
    requires labels { (uid : ℕ) → map.get nat_cmp labels.now uid ≡ place_of uid f.now.insns }
    requires rows { AreLiveRows f.now rows.now }
    ensures { IfOk result (AreLiveAfter f.now place) }
{
    live_at(
        alloc,
        rows,
        successors_by(labels, f.insns.as_slice(), place),
    )
}
