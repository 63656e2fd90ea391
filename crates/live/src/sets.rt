//! Rows as sets of registers.
ghost use Rattle.std.specs.Prelude.{◌≡◌, ℕ, ◌^◌, ◌≤◌, ◌==◌, ◌||◌, ◌&&◌, length, OnOk};
ghost use Rattle.rtx_tree.specs.RegSet.{has_reg};
ghost use Rattle.reg_rows.specs.Row.{has};

use plain_data::Memory;
use reg_rows::RegRow;
use rtx_tree::RegSet;

const WORD: usize = u64::BITS as usize;

/// Adds register `reg` if the row has it.
fn add_register(row: &RegRow, reg: u32, set: &mut RegSet) -> Result<(), Memory>
    ensures { OnOk result ((other : ℕ) →
        has_reg set.new other ≡ (has_reg set.old other || (other == reg && has row.now other))) }
{
    if row.contains(reg) {
        set.insert(reg)
    } else {
        Ok(())
    }
}

/// Adds the registers of a row.
pub fn add_row(row: &RegRow, set: &mut RegSet) -> Result<(), Memory>
    requires { length row.now ≤ 2 ^ 26 }
    ensures { OnOk result ((reg : ℕ) →
        has_reg set.new reg ≡ (has_reg set.old reg || has row.now reg)) }
{
    let end = row.width() * WORD;
    let mut reg = 0;
    while reg < end {
        if row.is_passed(reg) {
            reg += WORD;
            continue;
        }
        add_register(row, reg as u32, set)?;
        reg += 1;
    }
    Ok(())
}
