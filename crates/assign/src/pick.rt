//! The first register that is free, for each pseudo in turn.
ghost use Rattle.std.specs.Prelude.{◌≡◌, ℕ, ◌<◌, ◌≤◌, ◌^◌, ◌==◌, ◌||◌, ◌&&◌, not, nat_lt, length, vec_len, map, [], All, IfOk};
ghost use Rattle.std.specs.List.{find};
ghost use Rattle.rtx_tree.specs.Registers as registers;
ghost use Rattle.reg_rows.specs.Table.{has_at};
ghost use Rattle.reg_conflicts.specs.machine.Sparse.{AreSparse};
ghost use Rattle.assign.specs.machine.Picked.{beside, is_hard, home_from, AreAlike, AreBlocked, IsPicked};

use crate::home::{Home, HomeOf, Homes};
use plain_data::Memory;
use reg_rows::{RegRow, empty_rows, has, join_row};
use rtx_tree::FIRST_PSEUDO;
use std::alloc::Global;

/// Blocks a hard register for the registers of the row of register `reg`.
fn block(rows: &[RegRow], reg: u32, hard: usize, blocked: &mut [RegRow])
    requires { AreAlike rows.now blocked.old }
    ensures alike { AreAlike rows.now blocked.new }
    ensures each { (x y : ℕ) → has_at blocked.new x y ≡
        (has_at blocked.old x y || ((nat_lt x (length blocked.old) && hard == x) && has_at rows.now
        reg y)) }
{
    let Some(row) = rows.get(reg as usize) else {
        return;
    };
    if row.width() == 0 {
        return;
    }
    if hard < blocked.len() {
        let _ = join_row(blocked, hard, row);
    }
}

/// For each hard register the registers that can't have it since they conflict with it. The rows
/// are of so many words, or of none.
fn blocked_by_own(alloc: Global, rows: &[RegRow], width: usize) -> Result<Vec<RegRow>, Memory>
    requires small { width ≤ 2 ^ 26 }
    requires sparse { AreSparse width rows.now }
    ensures long { IfOk result (λ blocked. vec_len blocked ≡ 64) }
    ensures alike { IfOk result (λ blocked. AreAlike rows.now blocked.items) }
    ensures blocked { IfOk result (λ blocked. AreBlocked rows.now [] blocked.items) }
{
    let mut blocked = empty_rows(alloc, FIRST_PSEUDO as usize, width)?;
    for hard in 0..FIRST_PSEUDO {
        block(rows, hard, hard as usize, blocked.as_mut_slice());
    }
    Ok(blocked)
}

/// The first register of the order that is not blocked for register `reg`, else a slot.
fn first_free(blocked: &[RegRow], order: &[u8], reg: u32) -> Home
    ensures { result ≡ home_from (find (λ hard. not (has_at blocked.now hard reg)) order.now) }
{
    for hard in order {
        let hard = *hard;
        if !has(blocked, usize::from(hard), reg) {
            return Home::Hard { reg: hard };
        }
    }
    Home::Slot
}

/// Blocks a register's home for those that conflict with the register.
fn block_home(rows: &[RegRow], reg: u32, home: Home, blocked: &mut [RegRow])
    requires { AreAlike rows.now blocked.old }
    ensures alike { AreAlike rows.now blocked.new }
    ensures each { (x y : ℕ) → has_at blocked.new x y ≡
        (has_at blocked.old x y || ((nat_lt x (length blocked.old) && is_hard home x) && has_at
        rows.now reg y)) }
{
    match home {
        Home::Hard { reg: hard } => block(rows, reg, usize::from(hard), blocked),
        Home::Slot => {}
    }
}

/// Gives each pseudo, in their order, the first register of the order that is free beside the
/// earlier ones, else a slot. The rows, each with the registers that its own conflicts with, are of
/// so many words, or of none.
pub fn pick(
    alloc: Global,
    rows: &[RegRow],
    width: usize,
    order: &[u8],
    pseudos: &[u32],
) -> Result<Homes, Memory>
    requires small { width ≤ 2 ^ 26 }
    requires sparse { AreSparse width rows.now }
    requires order { All (λ hard. hard < 64) order.now }
    requires pseudos { All (λ k. registers.pseudo k < 2 ^ 32) pseudos.now }
    ensures pseudos { IfOk result (λ homes. map (λ x. x.pseudo) homes ≡ pseudos.now) }
    ensures picked { IfOk result (λ homes. IsPicked (beside rows.now) order.now homes) }
{
    let mut homes = Homes::new(alloc);
    let mut blocked = blocked_by_own(alloc, rows, width)?;
    for pseudo in pseudos {
        let pseudo = *pseudo;
        let reg = FIRST_PSEUDO + pseudo;
        let home = first_free(blocked.as_slice(), order, reg);
        block_home(rows, reg, home, blocked.as_mut_slice());
        homes.push(HomeOf { pseudo, home })?;
    }
    Ok(homes)
}
