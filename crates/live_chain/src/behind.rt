//! The row of what is live after a place.
ghost use Rattle.std.specs.Prelude.{◌≡◌, ℕ, ◌<◌, ◌≤◌, ◌^◌, ◌||◌, ◌↔◌};
ghost use Rattle.std.specs.Prelude.{true, IfOk, OnOk, length};
ghost use Rattle.reg_rows.specs.Row.{has};
ghost use Rattle.rtx_tree.specs.declared.function.Function.{Function};
ghost use Rattle.live_rows.specs.machine.Rows.{at_place};
ghost use Rattle.live.specs.Live.{AreLiveRows, IsLive, IsLiveAfter};
ghost use Rattle.live_chain.specs.Narrow.{AreNarrow};

use crate::leads::successors;
use crate::room::add_row;
use gap_list::GapList;
use plain_data::Memory;
use reg_rows::RegRow;
use rtx_tree::Insn;
use std::alloc::Global;

/// The row of a place, if it is one, and else no register.
fn copy_at(alloc: Global, rows: &GapList<RegRow>, place: Option<u32>) -> Result<RegRow, Memory>
    requires { AreNarrow rows.now }
    ensures row { IfOk result (λ row. (reg : ℕ) → has row reg ≡ at_place place rows.now reg) }
    ensures narrow { IfOk result (λ row. length row ≤ 2 ^ 26) }
{
    let Some(place) = place else {
        return Ok(RegRow::empty(alloc));
    };
    if (place as usize) < rows.len() {
        rows.item(place as usize).copy(alloc)
    } else {
        Ok(RegRow::empty(alloc))
    }
}

/// Adds the row of a place, if it is one.
fn add_at(
    alloc: Global,
    rows: &GapList<RegRow>,
    place: Option<u32>,
    to: &mut RegRow,
) -> Result<(), Memory>
    requires rows { AreNarrow rows.now }
    requires to { length to.old ≤ 2 ^ 26 }
    ensures each { OnOk result ((reg : ℕ) →
        has to.new reg ≡ (has to.old reg || at_place place rows.now reg)) }
    ensures narrow { length to.new ≤ 2 ^ 26 }
{
    let Some(place) = place else {
        return Ok(());
    };
    if (place as usize) < rows.len() {
        add_row(alloc, rows.item(place as usize), to)
    } else {
        Ok(())
    }
}

/// Whether the row of a place, if it is one, has a register.
fn has_at(rows: &GapList<RegRow>, place: Option<u32>, reg: u32) -> bool
    ensures { result ≡ at_place place rows.now reg }
{
    match place {
        Some(place) if (place as usize) < rows.len() => rows.item(place as usize).contains(reg),
        _ => false,
    }
}

/// Whether a register is live before a place, by the rows of what is live before each.
pub fn is_before(rows: &GapList<RegRow>, place: u32, reg: u32) -> bool
    ensures { (f : Function) → AreLiveRows f rows.now → (result ≡ true) ↔ IsLive f reg place }
{
    has_at(rows, Some(place), reg)
}

/// Whether the row of one of two places has a register.
fn either_has(rows: &GapList<RegRow>, first: Option<u32>, second: Option<u32>, reg: u32) -> bool
    ensures { result ≡ (at_place first rows.now reg || at_place second rows.now reg) }
{
    has_at(rows, first, reg) || has_at(rows, second, reg)
}

/// Whether a register is live after a place, by the rows of what is live before each. A chain of
/// 2^32 places or more finds no memory.
pub fn is_after(
    insns: &GapList<Insn>,
    rows: &GapList<RegRow>,
    place: u32,
    reg: u32,
) -> Result<bool, Memory>
    ensures { (f : Function) → f.insns ≡ insns.now → AreLiveRows f rows.now →
        IfOk result (λ live. (live ≡ true) ↔ IsLiveAfter f reg place) }
{
    if insns.len() > u32::MAX as usize {
        return Err(Memory);
    }
    let next = successors(insns, place);
    Ok(either_has(rows, next.first, next.second, reg))
}

/// The registers that are live after a place, by the rows of what is live before each.
pub fn row_after(
    alloc: Global,
    insns: &GapList<Insn>,
    rows: &GapList<RegRow>,
    place: u32,
) -> Result<RegRow, Memory>
    requires short { length insns.now < 2 ^ 32 }
    requires narrow { AreNarrow rows.now }
    ensures live { (f : Function) → f.insns ≡ insns.now → AreLiveRows f rows.now →
        IfOk result (λ row. (reg : ℕ) → (has row reg ≡ true) ↔ IsLiveAfter f reg place) }
    ensures narrow { IfOk result (λ row. length row ≤ 2 ^ 26) }
{
    let next = successors(insns, place);
    let mut row = copy_at(alloc, rows, next.first)?;
    add_at(alloc, rows, next.second, &mut row)?;
    Ok(row)
}
