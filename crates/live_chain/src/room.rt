//! Rows with room for more registers.
ghost use Rattle.std.specs.Prelude.{◌≡◌, ℕ, ◌^◌, ◌≤◌, ◌<◌, ◌*◌, ◌==◌, ◌||◌, ◌&&◌, length, All, OnOk};
ghost use Rattle.rtx_tree.specs.RegSet.{has_reg};
ghost use Rattle.reg_rows.specs.Row.{has};

use plain_data::Memory;
use reg_rows::{RegRow, width_of};
use std::alloc::Global;

const WORD: usize = u64::BITS as usize;

/// Adds register `reg` if the row has it.
fn add_register(row: &RegRow, reg: u32, to: &mut RegRow)
    requires { reg < 64 * length to.old }
    ensures each { (other : ℕ) →
        has to.new other ≡ (has to.old other || (other == reg && has row.now other)) }
    ensures width { length to.new ≡ length to.old }
{
    if row.contains(reg) {
        to.insert(reg);
    }
}

/// Adds the registers of a row to one that is as wide or wider.
fn add_narrower(row: &RegRow, to: &mut RegRow)
    requires narrow { length row.now ≤ 2 ^ 26 }
    requires wider { length row.now ≤ length to.old }
    ensures each { (reg : ℕ) → has to.new reg ≡ (has to.old reg || has row.now reg) }
    ensures width { length to.new ≡ length to.old }
{
    let end = row.width() * WORD;
    let mut reg = 0;
    while reg < end {
        if row.is_passed(reg) {
            reg += WORD;
            continue;
        }
        add_register(row, reg as u32, to);
        reg += 1;
    }
}

/// Makes a row as wide as `width`, if it is not.
fn widen(alloc: Global, row: &mut RegRow, width: usize) -> Result<(), Memory>
    requires narrow { length row.old ≤ 2 ^ 26 }
    requires within { width ≤ 2 ^ 26 }
    ensures each { (reg : ℕ) → has row.new reg ≡ has row.old reg }
    ensures wide { OnOk result (width ≤ length row.new) }
    ensures narrow { length row.new ≤ 2 ^ 26 }
{
    if row.width() < width {
        let mut wide = RegRow::new(alloc, width)?;
        add_narrower(row, &mut wide);
        *row = wide;
    }
    Ok(())
}

/// Adds the registers of a row.
pub fn add_row(alloc: Global, row: &RegRow, to: &mut RegRow) -> Result<(), Memory>
    requires row { length row.now ≤ 2 ^ 26 }
    requires to { length to.old ≤ 2 ^ 26 }
    ensures each { OnOk result ((reg : ℕ) → has to.new reg ≡ (has to.old reg || has row.now reg)) }
    ensures narrow { length to.new ≤ 2 ^ 26 }
{
    widen(alloc, to, row.width())?;
    add_narrower(row, to);
    Ok(())
}

fn insert_all(row: &mut RegRow, regs: &[u32])
    requires { All (λ reg. reg < 64 * length row.old) regs.now }
    ensures each { (reg : ℕ) → has row.new reg ≡ (has row.old reg || has_reg regs.now reg) }
    ensures width { length row.new ≡ length row.old }
{
    for reg in regs {
        row.insert(*reg);
    }
}

/// Adds some registers.
pub fn put_in(alloc: Global, row: &mut RegRow, regs: &[u32]) -> Result<(), Memory>
    requires { length row.old ≤ 2 ^ 26 }
    ensures each { OnOk result ((reg : ℕ) →
        has row.new reg ≡ (has row.old reg || has_reg regs.now reg)) }
    ensures narrow { length row.new ≤ 2 ^ 26 }
{
    widen(alloc, row, width_of(regs, 0))?;
    insert_all(row, regs);
    Ok(())
}
