//! Which places wait to be visited: some in this round, which goes down, the others in the next.
ghost use Rattle.std.specs.Prelude.{◌≡◌, ℕ, ◌-◌, ◌*◌, ◌^◌, ◌<◌, ◌≤◌, ◌==◌, ◌||◌, true, false, length, All, IfOk};
ghost use Rattle.reg_rows.specs.Row.{has, lists};
ghost use Rattle.live_rows.specs.machine.Waiting.{waits};

use plain_data::Memory;
use reg_rows::RegRow;
use std::alloc::Global;

const WORD: usize = u64::BITS as usize;

/// All places below a number.
pub fn all_places(alloc: Global, count: usize) -> Result<RegRow, Memory>
    requires { count ≤ 2 ^ 32 }
    ensures room { IfOk result (λ row. count ≤ 64 * length row) }
    ensures each { IfOk result (λ row. (place : ℕ) → place < count → has row place ≡ true) }
{
    let mut row = RegRow::new(alloc, count / WORD + 1)?;
    for place in 0..count {
        row.insert(place as u32);
    }
    Ok(row)
}

/// Whether the word of places below `at` is known to have none of this round.
pub fn is_passed(now: &RegRow, at: usize) -> bool
    requires { at ≤ 64 * length now.now }
    ensures word { result ≡ true → 64 ≤ at }
    ensures none { result ≡ true → (place : ℕ) → at - 64 ≤ place → place < at →
        has now.now place ≡ false }
{
    WORD <= at && now.is_passed(at - WORD)
}

/// Lets a place wait: in this round, where it stands below `at`, else in the next.
fn put_off(place: u32, at: usize, now: &mut RegRow, next: &mut RegRow)
    requires now { place < 64 * length now.old }
    requires next { place < 64 * length next.old }
    ensures now { length now.new ≡ length now.old }
    ensures next { length next.new ≡ length next.old }
    ensures each { (other : ℕ) → waits at now.new next.new other ≡
        (waits at now.old next.old other || other == place) }
{
    if (place as usize) < at {
        now.insert(place);
    } else {
        next.insert(place);
    }
}

/// Lets places wait, those below `at` in this round.
pub fn put_all_off(places: &[u32], at: usize, now: &mut RegRow, next: &mut RegRow)
    requires now { All (λ place. place < 64 * length now.old) places.now }
    requires next { All (λ place. place < 64 * length next.old) places.now }
    ensures now { length now.new ≡ length now.old }
    ensures next { length next.new ≡ length next.old }
    ensures each { (other : ℕ) → waits at now.new next.new other ≡
        (waits at now.old next.old other || lists places.now other) }
{
    for place in places {
        put_off(*place, at, now, next);
    }
}
