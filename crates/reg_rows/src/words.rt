//! Sets of registers as words of 64 bits: a register is in the set where its bit is 1.
ghost use Rattle.std.specs.Prelude.{◌≡◌, ℕ, ◌-◌, ◌*◌, ◌^◌, ◌<◌, ◌≤◌, ◌==◌, ◌||◌, ◌&&◌, not, true, false, length, sum, OnOk};
ghost use Rattle.reg_rows.specs.Row.{has};

use plain_data::Memory;

const WORD: u32 = u64::BITS;

const WIDE_WORD: u64 = WORD as u64;

pub fn contains(words: &[u64], reg: u64) -> bool
    ensures { result ≡ has words.now reg }
{
    let word = reg / WIDE_WORD;
    word < words.len() as u64 && (words[word as usize] >> (reg % WIDE_WORD) as u32) & 1 == 1
}

pub fn insert(words: &mut [u64], reg: u32)
    requires { reg < 64 * length words.old }
    ensures each { (other : ℕ) → has words.new other ≡ (has words.old other || other == reg) }
    ensures fits { sum words.new ≤ length words.new * (2 ^ 64 - 1) }
{
    let word = (reg / WORD) as usize;
    words[word] |= 1 << (reg % WORD);
}

pub fn remove(words: &mut [u64], reg: u32)
    ensures { (other : ℕ) → has words.new other ≡ (has words.old other && not (other == reg)) }
{
    let word = (reg / WORD) as usize;
    if word < words.len() {
        words[word] &= !(1 << (reg % WORD));
    }
}

/// Adds words until there is a bit for the register.
#[tactic(auto, using(crate::proofs::WordLaws::has_more))]
pub fn make_room(words: &mut Vec<u64>, reg: u32) -> Result<(), Memory>
    ensures same { (other : ℕ) → has words.new.items other ≡ has words.old.items other }
    ensures room { OnOk result (reg < 64 * length words.new.items) }
{
    let word = (reg / WORD) as usize;
    while words.len() <= word {
        words.push(0)?;
    }
    Ok(())
}

pub fn clear(words: &mut [u64])
    ensures { (other : ℕ) → has words.new other ≡ false }
{
    for word in words.iter_mut() {
        *word = 0;
    }
}

/// Adds the registers of another set, and says whether any was new.
pub fn join(into: &mut [u64], from: &[u64]) -> bool
    requires { length into.old ≡ length from.now }
    ensures each { (other : ℕ) → has into.new other ≡ (has into.old other || has from.now other) }
    ensures same { result ≡ false → into.new ≡ into.old }
    ensures grown { result ≡ true → sum into.old < sum into.new }
    ensures fits { sum into.new ≤ length into.new * (2 ^ 64 - 1) }
{
    let mut changed = false;
    for i in 0..into.len() {
        let both = into[i] | from[i];
        if both != into[i] {
            into[i] = both;
            changed = true;
        }
    }
    changed
}
