//! The rows of conflicts.
ghost use Rattle.std.specs.Prelude.{◌≡◌, ℕ, ◌*◌, ◌<◌, ◌≤◌, ◌^◌, ◌||◌, length, vec_len, false, true, slice_get, Some, IfOk, OnOk};
ghost use Rattle.std.specs.Ordering.{nat_cmp};
ghost use Rattle.std.specs.BTreeMap as map;
ghost use Rattle.rtx_tree.specs.Patterns.{place_of};
ghost use Rattle.rtx_tree.specs.declared.function.Insn.{Insn};
ghost use Rattle.reg_rows.specs.Table.{has_at, IsTable};
ghost use Rattle.reg_uses.specs.Uses as uses;
ghost use Rattle.live.specs.Live.{AreLiveRows, HaveRoom};
ghost use Rattle.reg_conflicts.specs.Conflicts.{AreConflicts};
ghost use Rattle.reg_conflicts.specs.machine.Rows.{is_beside};
ghost use Rattle.reg_conflicts.specs.machine.Sparse.{AreSparse};

use crate::mark::{collect, mark};
use plain_data::Memory;
use reg_rows::RegRow;
use reg_uses::insn_defines;
use rtl_func::{Labels, labels_of, successors_by};
use rtx_tree::{Function, Insn};
use std::alloc::Global;

const WORD: usize = u64::BITS as usize;

/// A function with the places of its labels and what is live before each of its instructions.
#[derive(Clone, Copy)]
struct Flow<'a> {
    function: &'a Function,
    labels: &'a Labels,
    live: &'a [RegRow],
}

/// Adds the conflicts of what one instruction defines with what is live after it.
fn add_insn(
    alloc: Global,
    flow: &Flow<'_>,
    at: u32,
    insn: &Insn,
    rows: &mut [RegRow],
    set: &mut RegRow,
) -> Result<(), Memory>
    requires short { length flow.now.function.now.insns < 2 ^ 32 }
    requires labels { (uid : ℕ) → map.get nat_cmp flow.now.labels.now uid ≡ place_of uid
        flow.now.function.now.insns }
    requires live { IsTable (length set.old) flow.now.live.now }
    requires sparse { AreSparse (length set.old) rows.old }
    requires long { length rows.old ≡ 64 * length set.old }
    requires small { 64 * length set.old ≤ 2 ^ 32 }
    requires room { (reg : ℕ) → uses.insn_defines insn.now reg ≡ true → reg < 64 * length set.old }
    ensures width { length set.new ≡ length set.old }
    ensures sparse { AreSparse (length set.old) rows.new }
    ensures each { OnOk result ((x y : ℕ) → has_at rows.new x y ≡
        (has_at rows.old x y || (is_beside flow.now.function.now flow.now.live.now at insn.now x y
        || is_beside flow.now.function.now flow.now.live.now at insn.now y x))) }
{
    let defines = insn_defines(alloc, insn)?;
    let successors = successors_by(flow.labels, flow.function.insns.as_slice(), at);
    collect(flow.live, successors, set);
    mark(alloc, rows, defines.as_slice(), set)?;
    Ok(())
}

fn fill(
    alloc: Global,
    f: &Function,
    live: &[RegRow],
    rows: &mut [RegRow],
    set: &mut RegRow,
) -> Result<(), Memory>
    requires short { length f.now.insns < 2 ^ 32 }
    requires exact { AreLiveRows f.now live.now }
    requires live { IsTable (length set.old) live.now }
    requires sparse { AreSparse (length set.old) rows.old }
    requires long { length rows.old ≡ 64 * length set.old }
    requires small { 64 * length set.old ≤ 2 ^ 32 }
    requires room { (p : ℕ) (i : Insn) (reg : ℕ) → slice_get f.now.insns p ≡ Some i →
        uses.insn_defines i reg ≡ true → reg < 64 * length set.old }
    requires none { (x y : ℕ) → has_at rows.old x y ≡ false }
    ensures sparse { AreSparse (length set.old) rows.new }
    ensures conflicts { OnOk result (AreConflicts f.now rows.new) }
{
    let insns = f.insns.as_slice();
    let labels = labels_of(alloc, insns)?;
    let flow = Flow {
        function: f,
        labels: &labels,
        live,
    };
    for at in 0..insns.len() {
        add_insn(alloc, &flow, at as u32, &insns[at], rows, set)?;
    }
    Ok(())
}

/// The width of rows that are all of one.
pub fn width_of_rows(rows: &[RegRow]) -> usize
    ensures { (width : ℕ) → IsTable width rows.now → 0 < length rows.now → result ≡ width }
{
    match rows {
        [] => 0,
        [first, ..] => first.width(),
    }
}

/// So many rows without words.
fn bare_rows(alloc: Global, count: usize) -> Result<Vec<RegRow>, Memory>
    ensures long { IfOk result (λ rows. vec_len rows ≡ count) }
    ensures none { IfOk result (λ rows. (at reg : ℕ) → has_at rows.items at reg ≡ false) }
    ensures sparse { IfOk result (λ rows. (width : ℕ) → AreSparse width rows.items) }
{
    let mut rows = Vec::new(alloc);
    for place in 0..count {
        rows.push(RegRow::empty(alloc))?;
    }
    Ok(rows)
}

/// For each register below 64 times the width of the rows of what is live the row of those with
/// which it conflicts, of the same width, or without words where it has no conflict; nor have the
/// others any.
pub fn conflict_rows(alloc: Global, f: &Function, live: &[RegRow]) -> Result<Vec<RegRow>, Memory>
    requires live { AreLiveRows f.now live.now }
    requires room { HaveRoom f.now live.now }
    ensures conflicts { IfOk result (λ rows. AreConflicts f.now rows.items) }
    ensures sparse { (width : ℕ) → IsTable width live.now →
        IfOk result (λ rows. AreSparse width rows.items) }
{
    let width = width_of_rows(live);
    let mut rows = bare_rows(alloc, width * WORD)?;
    let mut set = RegRow::new(alloc, width)?;
    fill(alloc, f, live, rows.as_mut_slice(), &mut set)?;
    Ok(rows)
}
