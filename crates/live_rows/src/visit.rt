//! One place's row, by the rows of the places that may follow it.
ghost use Rattle.std.specs.Prelude.{◌≡◌, ℕ, ◌<◌, ◌≤◌, ◌==◌, ◌||◌, ◌&&◌, not, true, false, length, All};
ghost use Rattle.reg_rows.specs.Row.{has, lists};
ghost use Rattle.reg_rows.specs.Table.{has_at, total, IsTable};
ghost use Rattle.live_rows.specs.machine.Rows.{at_place, after, passes};

use crate::node::Node;
use reg_rows::{RegRow, join_row};

/// Adds the row of a place, if there is one.
pub fn add_place(rows: &[RegRow], place: Option<u32>, set: &mut RegRow)
    requires { All (λ row. length row ≡ length set.old) rows.now }
    ensures width { length set.new ≡ length set.old }
    ensures each { (reg : ℕ) → has set.new reg ≡ (has set.old reg || at_place place rows.now reg) }
{
    if let Some(place) = place
        && let Some(row) = rows.get(place as usize)
    {
        let _ = set.join(row);
    }
}

/// Takes registers out of a set.
fn take_out(regs: &[u32], set: &mut RegRow)
    ensures width { length set.new ≡ length set.old }
    ensures each { (reg : ℕ) → has set.new reg ≡ (has set.old reg && not (lists regs.now reg)) }
{
    for reg in regs {
        set.remove(*reg);
    }
}

/// Collects the registers that are needed after a place and that it does not define.
fn collect(node: &Node, rows: &[RegRow], set: &mut RegRow)
    requires { All (λ row. length row ≡ length set.old) rows.now }
    ensures width { length set.new ≡ length set.old }
    ensures each { (reg : ℕ) → has set.new reg ≡ passes node.now rows.now reg }
{
    set.clear();
    add_place(rows, node.first, set);
    add_place(rows, node.second, set);
    take_out(node.defines.as_slice(), set);
}

/// Adds to the row of a place what is needed after it and what it does not define, and says whether
/// any was new.
pub fn visit(node: &Node, rows: &mut [RegRow], set: &mut RegRow, at: usize) -> bool
    requires place { at < length rows.old }
    requires table { IsTable (length set.old) rows.old }
    ensures width { length set.new ≡ length set.old }
    ensures table { IsTable (length set.old) rows.new }
    ensures each { (other reg : ℕ) → has_at rows.new other reg ≡
        (has_at rows.old other reg || (other == at && passes node.now rows.old reg)) }
    ensures same { result ≡ false → rows.new ≡ rows.old }
    ensures kept { total rows.old ≤ total rows.new }
    ensures grown { result ≡ true → total rows.old < total rows.new }
{
    collect(node, rows, set);
    join_row(rows, at, set)
}
