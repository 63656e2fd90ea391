//! What is live after a place, and the rows of what is defined there.
ghost use Rattle.std.specs.Prelude.{◌≡◌, ℕ, ◌*◌, ◌<◌, ◌≤◌, ◌^◌, ◌==◌, ◌||◌, ◌&&◌, List, length, slice_get, Some, All, OnOk};
ghost use Rattle.rtx_tree.specs.RegSet.{has_reg};
ghost use Rattle.reg_rows.specs.Row.{has};
ghost use Rattle.reg_rows.specs.Table.{has_at, IsTable};
ghost use Rattle.live_rows.specs.machine.Rows.{at_place};
ghost use Rattle.reg_conflicts.specs.machine.Sparse.{AreSparse};

use live_rows::add_place;
use plain_data::Memory;
use reg_rows::RegRow;
use rtl_func::Successors;
use std::alloc::Global;

const WORD: usize = u64::BITS as usize;

/// Collects the registers that are live before one of the places to which an instruction leads.
pub fn collect(live: &[RegRow], next: Successors, set: &mut RegRow)
    requires { IsTable (length set.old) live.now }
    ensures width { length set.new ≡ length set.old }
    ensures each { (reg : ℕ) →
        has set.new reg ≡ (at_place next.first live.now reg || at_place next.second live.now reg) }
{
    set.clear();
    add_place(live, next.first, set);
    add_place(live, next.second, set);
}

/// Gives the row at a place so many words, if it has none yet.
fn make_row(alloc: Global, rows: &mut [RegRow], at: usize, width: usize) -> Result<(), Memory>
    requires place { at < length rows.old }
    requires sparse { AreSparse width rows.old }
    ensures sparse { AreSparse width rows.new }
    ensures same { (x y : ℕ) → has_at rows.new x y ≡ has_at rows.old x y }
    ensures wide { OnOk result ((row : List ℕ) → slice_get rows.new at ≡ Some row →
        width ≤ length row) }
{
    if rows[at].width() < width {
        let row = RegRow::new(alloc, width)?;
        rows[at] = row;
    }
    Ok(())
}

/// Adds register `reg` to the row of another, if the set has that one.
fn mark_other(
    alloc: Global,
    rows: &mut [RegRow],
    other: usize,
    reg: u32,
    set: &RegRow,
) -> Result<(), Memory>
    requires sparse { AreSparse (length set.now) rows.old }
    requires place { other < length rows.old }
    requires small { other < 2 ^ 32 }
    requires room { reg < 64 * length set.now }
    ensures sparse { AreSparse (length set.now) rows.new }
    ensures each { OnOk result ((x y : ℕ) → has_at rows.new x y ≡
        (has_at rows.old x y || ((has set.now x && other == x) && reg == y))) }
{
    if set.contains(other as u32) {
        make_row(alloc, rows, other, set.width())?;
        rows[other].insert(reg);
    }
    Ok(())
}

/// Adds register `reg` to the row of each register of a set.
fn mark_others(alloc: Global, rows: &mut [RegRow], reg: u32, set: &RegRow) -> Result<(), Memory>
    requires sparse { AreSparse (length set.now) rows.old }
    requires long { length rows.old ≡ 64 * length set.now }
    requires small { 64 * length set.now ≤ 2 ^ 32 }
    requires room { reg < 64 * length set.now }
    ensures sparse { AreSparse (length set.now) rows.new }
    ensures each { OnOk result ((x y : ℕ) →
        has_at rows.new x y ≡ (has_at rows.old x y || (has set.now x && reg == y))) }
{
    let end = set.width() * WORD;
    let mut other = 0;
    while other < end {
        if set.is_passed(other) {
            other += WORD;
            continue;
        }
        mark_other(alloc, rows, other, reg, set)?;
        other += 1;
    }
    Ok(())
}

/// Adds a set to the row of register `reg`.
fn mark_own(alloc: Global, rows: &mut [RegRow], reg: u32, set: &RegRow) -> Result<(), Memory>
    requires sparse { AreSparse (length set.now) rows.old }
    requires place { reg < length rows.old }
    ensures sparse { AreSparse (length set.now) rows.new }
    ensures each { OnOk result ((x y : ℕ) →
        has_at rows.new x y ≡ (has_at rows.old x y || (x == reg && has set.now y))) }
{
    make_row(alloc, rows, reg as usize, set.width())?;
    let _ = rows[reg as usize].join(set);
    Ok(())
}

/// Adds a set to the row of register `reg`, and the register to the rows of the set.
fn mark_one(alloc: Global, rows: &mut [RegRow], reg: u32, set: &RegRow) -> Result<(), Memory>
    requires sparse { AreSparse (length set.now) rows.old }
    requires long { length rows.old ≡ 64 * length set.now }
    requires small { 64 * length set.now ≤ 2 ^ 32 }
    requires room { reg < 64 * length set.now }
    ensures sparse { AreSparse (length set.now) rows.new }
    ensures each { OnOk result ((x y : ℕ) → has_at rows.new x y ≡
        (has_at rows.old x y || ((has set.now y && reg == x) || (has set.now x && reg == y)))) }
{
    mark_own(alloc, rows, reg, set)?;
    mark_others(alloc, rows, reg, set)?;
    Ok(())
}

/// Adds a set to the row of each listed register, and these registers to the rows of the set.
pub fn mark(alloc: Global, rows: &mut [RegRow], regs: &[u32], set: &RegRow) -> Result<(), Memory>
    requires sparse { AreSparse (length set.now) rows.old }
    requires long { length rows.old ≡ 64 * length set.now }
    requires small { 64 * length set.now ≤ 2 ^ 32 }
    requires room { All (λ reg. reg < 64 * length set.now) regs.now }
    ensures sparse { AreSparse (length set.now) rows.new }
    ensures each { OnOk result ((x y : ℕ) → has_at rows.new x y ≡
        (has_at rows.old x y || ((has set.now y && has_reg regs.now x) ||
        (has set.now x && has_reg regs.now y)))) }
{
    for reg in regs {
        mark_one(alloc, rows, *reg, set)?;
    }
    Ok(())
}
