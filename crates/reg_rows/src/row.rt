//! A set of registers with room for those below a number.
ghost use Rattle.std.specs.Prelude.{◌≡◌, ℕ, ◌-◌, ◌*◌, ◌/◌, ◌%◌, ◌^◌, ◌<◌, ◌≤◌, ◌==◌, ◌||◌, ◌&&◌, not, true, false, length, sum, slice_index, [], All, IfOk, OnOk};
ghost use Rattle.reg_rows.specs.Row.{has, lists};

use crate::words;
use plain_data::Memory;
use std::alloc::Global;
use std::marker::Model;

const WORD: usize = u64::BITS as usize;

/// A set of registers by their numbers, with room for 64 in each word. Contracts see the words.
#[derive(Drop)]
pub struct RegRow {
    words: Vec<u64>,
}

impl Model for RegRow {
    ghost use Rattle.std.specs.Prelude.{List, ℕ};

    ghost Value = { List ℕ };

    ghost view = { λ row. row.words.items };
}

/// A width from `least` on with room for the registers: no greater than all numbers of 32 bits
/// ask for.
pub fn width_of(regs: &[u32], least: usize) -> usize
    requires { least ≤ 2 ^ 26 }
    ensures from { least ≤ result }
    ensures small { result ≤ 2 ^ 26 }
    ensures room { All (λ reg. reg < 64 * result) regs.now }
{
    let mut width = least;
    for reg in regs {
        width = width.max((*reg / u64::BITS) as usize + 1);
    }
    width
}

impl RegRow {
    /// No register, with room for 64 in each of `width` words.
    pub fn new(alloc: Global, width: usize) -> Result<RegRow, Memory>
        ensures width { IfOk result (λ row. length row ≡ width) }
        ensures none { IfOk result (λ row. (other : ℕ) → has row other ≡ false) }
        ensures zero { IfOk result (λ row. sum row ≡ 0) }
    {
        let words = vec![in alloc; 0u64; width]?;
        Ok(RegRow { words })
    }

    /// No register, with room for none. It takes no memory.
    pub fn empty(alloc: Global) -> RegRow
        ensures { result ≡ [] }
    {
        RegRow {
            words: Vec::new(alloc),
        }
    }

    /// A copy of the set, with the same room.
    pub fn copy(&self, alloc: Global) -> Result<RegRow, Memory>
        ensures { IfOk result (λ row. row ≡ self.now) }
    {
        Ok(RegRow {
            words: Vec::from_slice(alloc, self.words.as_slice())?,
        })
    }

    /// The listed registers, with room for 64 in each of `width` words.
    pub fn listed(alloc: Global, regs: &[u32], width: usize) -> Result<RegRow, Memory>
        requires { All (λ reg. reg < 64 * width) regs.now }
        ensures width { IfOk result (λ row. length row ≡ width) }
        ensures each { IfOk result (λ row. (reg : ℕ) → has row reg ≡ lists regs.now reg) }
        ensures fits { IfOk result (λ row. sum row ≤ width * (2 ^ 64 - 1)) }
    {
        let mut row = RegRow::new(alloc, width)?;
        for reg in regs {
            row.insert(*reg);
        }
        Ok(row)
    }

    /// How many words there are, each with room for 64 registers.
    pub fn width(&self) -> usize
        ensures { result ≡ length self.now }
    {
        self.words.len()
    }

    /// Whether a word begins with register `reg` and is 0: then the set has no register of it.
    pub fn is_passed(&self, reg: usize) -> bool
        requires { reg < 64 * length self.now }
        ensures { result ≡ (reg % 64 == 0 && slice_index self.now (reg / 64) == 0) }
    {
        reg % WORD == 0 && self.words[reg / WORD] == 0
    }

    /// Whether the set has register `reg`.
    pub fn contains(&self, reg: u32) -> bool
        ensures { result ≡ has self.now reg }
    {
        words::contains(self.words.as_slice(), u64::from(reg))
    }

    /// Whether the set has a register, whatever its number.
    pub fn has_number(&self, reg: u64) -> bool
        ensures { result ≡ has self.now reg }
    {
        words::contains(self.words.as_slice(), reg)
    }

    /// Puts register `reg` into the set.
    pub fn insert(&mut self, reg: u32)
        requires { reg < 64 * length self.old }
        ensures width { length self.new ≡ length self.old }
        ensures each { (other : ℕ) → has self.new other ≡ (has self.old other || other == reg) }
        ensures fits { sum self.new ≤ length self.new * (2 ^ 64 - 1) }
    {
        words::insert(self.words.as_mut_slice(), reg);
    }

    /// Adds words until there is room for register `reg`. The set is as before, after `Memory` too.
    pub fn make_room(&mut self, reg: u32) -> Result<(), Memory>
        ensures same { (other : ℕ) → has self.new other ≡ has self.old other }
        ensures room { OnOk result (reg < 64 * length self.new) }
    {
        words::make_room(&mut self.words, reg)
    }

    /// Takes register `reg` out of the set.
    pub fn remove(&mut self, reg: u32)
        ensures width { length self.new ≡ length self.old }
        ensures each { (other : ℕ) → has self.new other ≡
            (has self.old other && not (other == reg)) }
    {
        words::remove(self.words.as_mut_slice(), reg);
    }

    /// Takes all registers out of the set.
    pub fn clear(&mut self)
        ensures width { length self.new ≡ length self.old }
        ensures none { (other : ℕ) → has self.new other ≡ false }
    {
        words::clear(self.words.as_mut_slice());
    }

    /// Adds the registers of another set, and says whether any was new.
    pub fn join(&mut self, from: &RegRow) -> bool
        requires { length self.old ≡ length from.now }
        ensures width { length self.new ≡ length self.old }
        ensures each { (other : ℕ) → has self.new other ≡
            (has self.old other || has from.now other) }
        ensures same { result ≡ false → self.new ≡ self.old }
        ensures grown { result ≡ true → sum self.old < sum self.new }
        ensures fits { sum self.new ≤ length self.new * (2 ^ 64 - 1) }
    {
        words::join(self.words.as_mut_slice(), from.words.as_slice())
    }
}
