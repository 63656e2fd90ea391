//! The rows of a window's instructions, by what is live behind it.
ghost use Rattle.std.specs.Prelude.{◌≡◌, ◌≤◌, ◌^◌, ℕ, ◌||◌, ◌&&◌, not, List, ◌++◌, length, reverse, IfOk, OnOk};
ghost use Rattle.rtx_tree.specs.RegSet.{has_reg};
ghost use Rattle.rtx_tree.specs.declared.function.Insn.{Insn};
ghost use Rattle.reg_rows.specs.Row.{has};
ghost use Rattle.reg_uses.specs.Uses as insns;
ghost use Rattle.live_chain.specs.Narrow.{AreNarrow};
ghost use Rattle.live_chain.specs.machine.Window.{AreRowsOf, first_has};

use crate::room::put_in;
use plain_data::{Items, Memory};
use reg_rows::RegRow;
use reg_uses::{insn_defines, insn_uses};
use rtx_tree::Insn;
use std::alloc::Global;

fn take_out(row: &mut RegRow, regs: &[u32])
    ensures each { (reg : ℕ) → has row.new reg ≡ (has row.old reg && not (has_reg regs.now reg)) }
    ensures width { length row.new ≡ length row.old }
{
    for reg in regs {
        row.remove(*reg);
    }
}

/// The registers that are live before an instruction, by those after it.
fn row_before(alloc: Global, insn: &Insn, after: &RegRow) -> Result<RegRow, Memory>
    requires { length after.now ≤ 2 ^ 26 }
    ensures row { IfOk result (λ row. (reg : ℕ) → has row reg ≡
        (insns.insn_uses insn.now reg ||
        (not (insns.insn_defines insn.now reg) && has after.now reg))) }
    ensures narrow { IfOk result (λ row. length row ≤ 2 ^ 26) }
{
    let mut row = after.copy(alloc)?;
    take_out(&mut row, insn_defines(alloc, insn)?.as_slice());
    put_in(alloc, &mut row, insn_uses(alloc, insn)?.as_slice())?;
    Ok(row)
}

/// The row in front of an instruction, by the rows of what follows it, the last first: that of the
/// next, or the row behind them.
#[tactic(auto, using(crate::proofs::WindowLaws::last_has, crate::proofs::WindowLaws::none_has))]
fn row_in_front(
    alloc: Global,
    insn: &Insn,
    rows: &[RegRow],
    behind: &RegRow,
) -> Result<RegRow, Memory>
    requires rows { AreNarrow rows.now }
    requires behind { length behind.now ≤ 2 ^ 26 }
    ensures row { IfOk result (λ row. (reg : ℕ) → has row reg ≡
        (insns.insn_uses insn.now reg ||
        (not (insns.insn_defines insn.now reg) &&
        first_has (reverse rows.now) behind.now reg))) }
    ensures narrow { IfOk result (λ row. length row ≤ 2 ^ 26) }
{
    match rows.split_last() {
        None => row_before(alloc, insn, behind),
        Some((next, _)) => row_before(alloc, insn, next),
    }
}

/// Puts the rows of a window behind those of what follows it, the last first.
fn add_rows(
    alloc: Global,
    window: &[Insn],
    behind: &RegRow,
    rows: &mut Items<RegRow>,
) -> Result<(), Memory>
    requires behind { length behind.now ≤ 2 ^ 26 }
    requires rows { AreNarrow rows.old }
    ensures rows { OnOk result ((after : List Insn) →
        AreRowsOf after (has behind.now) (reverse rows.old) →
        AreRowsOf (window.now ++ after) (has behind.now) (reverse rows.new)) }
    ensures narrow { OnOk result (AreNarrow rows.new) }
{
    let mut at = window.len();
    while at > 0 {
        at -= 1;
        let row = row_in_front(alloc, &window[at], rows.as_slice(), behind)?;
        rows.push(row)?;
    }
    Ok(())
}

/// Some rows, the last first.
fn turned(rows: Items<RegRow>) -> Items<RegRow>
    ensures { result ≡ reverse rows }
{
    let mut vec = rows.into_vec();
    vec.reverse();
    Items::from_vec(vec)
}

/// The registers that are live before each instruction of two windows, one behind the other.
pub fn rows_within(
    alloc: Global,
    front: &[Insn],
    window: &[Insn],
    behind: &RegRow,
) -> Result<Items<RegRow>, Memory>
    requires { length behind.now ≤ 2 ^ 26 }
    ensures rows { IfOk result (AreRowsOf (front.now ++ window.now) (has behind.now)) }
    ensures narrow { IfOk result AreNarrow }
{
    let mut rows = Items::new(alloc);
    add_rows(alloc, window, behind, &mut rows)?;
    add_rows(alloc, front, behind, &mut rows)?;
    Ok(turned(rows))
}
