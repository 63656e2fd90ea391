//! Rounds over the places that wait.
ghost use Rattle.std.specs.Prelude.{◌≡◌, ℕ, ◌+◌, ◌*◌, ◌^◌, ◌<◌, ◌≤◌, true, false, length};
ghost use Rattle.reg_rows.specs.Row.{has};
ghost use Rattle.reg_rows.specs.Table.{total, IsTable};
ghost use Rattle.live_rows.specs.machine.Rows.{HasUses, IsSound};
ghost use Rattle.live_rows.specs.machine.Waiting.{IsBack, IsPending, AreLeft};

use crate::node::Node;
use crate::visit::visit;
use crate::waiting::{is_passed, put_all_off};
use plain_data::Items;
use reg_rows::RegRow;

const WORD: usize = u64::BITS as usize;

/// Visits a place if it waits in this round, lets those that lead to it wait if its row grew, and
/// says whether it did.
fn turn(
    nodes: &[Node],
    back: &[Items<u32>],
    rows: &mut [RegRow],
    set: &mut RegRow,
    at: usize,
    now: &mut RegRow,
    next: &mut RegRow,
) -> bool
    requires small { length nodes.now ≤ 2 ^ 32 }
    requires place { at < length nodes.now }
    requires back { IsBack nodes.now back.now }
    requires long { length back.now ≡ length nodes.now }
    requires places { length rows.old ≡ length nodes.now }
    requires now { length nodes.now ≤ 64 * length now.old }
    requires next { length nodes.now ≤ 64 * length next.old }
    requires table { IsTable (length set.old) rows.old }
    requires uses { HasUses nodes.now rows.old }
    requires sound { IsSound nodes.now rows.old }
    requires pending { IsPending nodes.now rows.old (at + 1) now.old next.old }
    ensures width { length set.new ≡ length set.old }
    ensures now { length now.new ≡ length now.old }
    ensures next { length next.new ≡ length next.old }
    ensures table { IsTable (length set.old) rows.new }
    ensures uses { HasUses nodes.now rows.new }
    ensures sound { IsSound nodes.now rows.new }
    ensures pending { IsPending nodes.now rows.new at now.new next.new }
    ensures same { result ≡ false → next.new ≡ next.old }
    ensures kept { total rows.old ≤ total rows.new }
    ensures grown { result ≡ true → total rows.old < total rows.new }
{
    if !now.contains(at as u32) {
        return false;
    }
    if !visit(&nodes[at], rows, set, at) {
        return false;
    }
    put_all_off(back[at].as_slice(), at, now, next);
    true
}

/// Visits each place that waits, from the last down, with those that come to wait below the one
/// that is visited, and says whether any row grew. Then others wait for the next round.
pub fn round(
    nodes: &[Node],
    back: &[Items<u32>],
    rows: &mut [RegRow],
    set: &mut RegRow,
    now: &mut RegRow,
    next: &mut RegRow,
) -> bool
    requires small { length nodes.now ≤ 2 ^ 32 }
    requires back { IsBack nodes.now back.now }
    requires long { length back.now ≡ length nodes.now }
    requires places { length rows.old ≡ length nodes.now }
    requires now { length nodes.now ≤ 64 * length now.old }
    requires next { length nodes.now ≤ 64 * length next.old }
    requires table { IsTable (length set.old) rows.old }
    requires uses { HasUses nodes.now rows.old }
    requires sound { IsSound nodes.now rows.old }
    requires pending { AreLeft nodes.now rows.old now.old }
    requires none { (place : ℕ) → has next.old place ≡ false }
    ensures width { length set.new ≡ length set.old }
    ensures now { length now.new ≡ length now.old }
    ensures next { length next.new ≡ length next.old }
    ensures table { IsTable (length set.old) rows.new }
    ensures uses { HasUses nodes.now rows.new }
    ensures sound { IsSound nodes.now rows.new }
    ensures pending { AreLeft nodes.now rows.new next.new }
    ensures none { result ≡ false → (place : ℕ) → has next.new place ≡ false }
    ensures grown { result ≡ true → total rows.old < total rows.new }
{
    let mut grew = false;
    let mut at = nodes.len();
    while at > 0 {
        if is_passed(now, at) {
            at -= WORD;
            continue;
        }
        at -= 1;
        if turn(nodes, back, rows, set, at, now, next) {
            grew = true;
        }
    }
    grew
}
