//! The homes of a function's pseudos.
ghost use Rattle.std.specs.Prelude.{◌≡◌, ℕ, ◌*◌, ◌<◌, ◌≤◌, ◌^◌, List, length, map, All, IfOk};
ghost use Rattle.rtx_tree.specs.Registers as registers;
ghost use Rattle.rv_regs.specs.Registers as tables;
ghost use Rattle.reg_rows.specs.Row.{has};
ghost use Rattle.reg_conflicts.specs.live.Live.{AreLiveRows, HaveRoom};
ghost use Rattle.reg_conflicts.specs.machine.Sparse.{AreSparse};
ghost use Rattle.assign.specs.declared.home.HomeOf.{HomeOf};
ghost use Rattle.assign.specs.Homes.{AreHomes};
ghost use Rattle.assign.specs.machine.Named.{stands_in};
ghost use Rattle.assign.specs.machine.Picked.{beside, IsPicked};

use crate::home::Homes;
use crate::named::{pseudos_of, registers_of};
use crate::pick::pick;
use plain_data::Memory;
use reg_conflicts::{conflict_rows, width_of_rows};
use reg_rows::{RegRow, width_of};
use rtx_tree::{Function, Insn};
use rv_regs::allocation_order;
use std::alloc::Global;

/// The registers that stand in the instructions, as a row with a bit for each hard register.
fn named_row(alloc: Global, insns: &[Insn]) -> Result<RegRow, Memory>
    ensures wide { IfOk result (λ row. 1 ≤ length row) }
    ensures small { IfOk result (λ row. 64 * length row ≤ 2 ^ 32) }
    ensures each { IfOk result (λ row. (reg : ℕ) → has row reg ≡ stands_in insns.now reg) }
{
    let regs = registers_of(alloc, insns)?;
    let width = width_of(regs.as_slice(), 1);
    let row = RegRow::listed(alloc, regs.as_slice(), width)?;
    Ok(row)
}

/// Picks in the allocation order.
fn pick_in_order(
    alloc: Global,
    rows: &[RegRow],
    width: usize,
    pseudos: &[u32],
) -> Result<Homes, Memory>
    requires small { width ≤ 2 ^ 26 }
    requires sparse { AreSparse width rows.now }
    requires pseudos { All (λ k. registers.pseudo k < 2 ^ 32) pseudos.now }
    ensures pseudos { IfOk result (λ homes. map (λ x. x.pseudo) homes ≡ pseudos.now) }
    ensures picked { IfOk result (λ homes.
        IsPicked (beside rows.now) tables.allocation_order homes) }
{
    let order = allocation_order();
    let homes = pick(alloc, rows, width, &order, pseudos)?;
    Ok(homes)
}

/// A home for each pseudo register that the function names: a hard register, or a slot. The rows
/// are those of the registers that are live in this function.
pub fn assign(alloc: Global, f: &Function, live: &[RegRow]) -> Result<Homes, Memory>
    requires live { AreLiveRows f.now live.now }
    requires room { HaveRoom f.now live.now }
    ensures homes { IfOk result (λ homes. AreHomes f.now homes) }
    ensures one { IfOk result (λ homes. (other : List HomeOf) → AreHomes f.now other →
        other ≡ homes) }
{
    let named = named_row(alloc, f.insns.as_slice())?;
    let pseudos = pseudos_of(alloc, &named)?;
    let rows = conflict_rows(alloc, f, live)?;
    let width = width_of_rows(live);
    let homes = pick_in_order(alloc, rows.as_slice(), width, pseudos.as_slice())?;
    Ok(homes)
}
