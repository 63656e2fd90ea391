//! Tables of rows of one width.
ghost use Rattle.std.specs.Prelude.{◌≡◌, ℕ, ◌^◌, ◌<◌, ◌≤◌, ◌==◌, ◌||◌, ◌&&◌, true, false, length, vec_len, All, IfOk};
ghost use Rattle.reg_rows.specs.Row as row;
ghost use Rattle.reg_rows.specs.Table.{has_at, total, IsTable};

use crate::row::RegRow;
use plain_data::Memory;
use std::alloc::Global;

/// `count` rows of no registers, each with room for 64 in each of `width` words.
pub fn empty_rows(alloc: Global, count: usize, width: usize) -> Result<Vec<RegRow>, Memory>
    requires { width ≤ 2 ^ 26 }
    ensures long { IfOk result (λ rows. vec_len rows ≡ count) }
    ensures none { IfOk result (λ rows. (at reg : ℕ) → has_at rows.items at reg ≡ false) }
    ensures table { IfOk result (λ rows. IsTable width rows.items) }
{
    let mut rows = Vec::new(alloc);
    for place in 0..count {
        rows.push(RegRow::new(alloc, width)?)?;
    }
    Ok(rows)
}

/// Whether the row at a place has a register. No row stands past the last.
pub fn has(rows: &[RegRow], at: usize, reg: u32) -> bool
    ensures { result ≡ has_at rows.now at reg }
{
    rows.get(at).is_some_and(|row| row.contains(reg))
}

/// Adds a set to the row at a place, and says whether any register was new.
pub fn join_row(rows: &mut [RegRow], at: usize, set: &RegRow) -> bool
    requires place { at < length rows.old }
    requires table { IsTable (length set.now) rows.old }
    ensures table { IsTable (length set.now) rows.new }
    ensures each { (other reg : ℕ) → has_at rows.new other reg ≡
        (has_at rows.old other reg || (other == at && row.has set.now reg)) }
    ensures same { result ≡ false → rows.new ≡ rows.old }
    ensures kept { total rows.old ≤ total rows.new }
    ensures grown { result ≡ true → total rows.old < total rows.new }
{
    rows[at].join(set)
}
