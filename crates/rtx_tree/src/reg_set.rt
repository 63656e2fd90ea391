//! Sets of registers.
ghost use Rattle.std.specs.Prelude.{◌≡◌, ℕ, ◌==◌, ◌||◌, ◌&&◌, not, [], IfOk, OnOk, OnErr};
ghost use Rattle.std.specs.List.Sorted.{IsStrictlyIncreasing};
ghost use Rattle.reg_rows.specs.Row.{has};
ghost use Rattle.rtx_tree.specs.RegSet.{has_reg};

use plain_data::Memory;
use reg_rows::RegRow;
use std::alloc::Global;
use std::marker::Model;

/// A set of registers by their numbers. Contracts see the list of the numbers in increasing order.
#[derive(Drop)]
pub struct RegSet {
    row: RegRow,
}

impl Model for RegSet {
    ghost use Rattle.std.specs.Prelude.{List, ℕ};
    ghost use Rattle.std.specs.List.Sorted.{IsStrictlyIncreasing};
    ghost use Rattle.rtx_tree.specs.RegSet.{members};

    ghost Value = { List ℕ };

    ghost view = { λ regs. members regs.row };

    ghost invariant = { λ regs. IsStrictlyIncreasing (members regs.row) };
}

impl RegSet {
    /// No register. It takes no memory.
    pub fn new(alloc: Global) -> RegSet
        ensures { result ≡ [] }
    {
        RegSet {
            row: RegRow::empty(alloc),
        }
    }

    /// The registers of a row.
    pub fn of_row(alloc: Global, row: &RegRow) -> Result<RegSet, Memory>
        ensures { IfOk result (λ regs. (reg : ℕ) → has_reg regs reg ≡ has row.now reg) }
    {
        Ok(RegSet {
            row: row.copy(alloc)?,
        })
    }

    /// Whether the set has register `reg`.
    pub fn contains(&self, reg: u32) -> bool
        ensures has { result ≡ has_reg self.now reg }
        ensures ordered { IsStrictlyIncreasing self.now }
    {
        self.row.contains(reg)
    }

    /// Whether the set has a register, whatever its number.
    pub fn has_number(&self, reg: u64) -> bool
        ensures { result ≡ has_reg self.now reg }
    {
        self.row.has_number(reg)
    }

    /// Puts register `reg` into the set. After `Memory` the set is as before.
    pub fn insert(&mut self, reg: u32) -> Result<(), Memory>
        ensures ok { OnOk result ((other : ℕ) →
            has_reg self.new other ≡ (has_reg self.old other || other == reg)) }
        ensures err { OnErr result (self.new ≡ self.old) }
    {
        self.row.make_room(reg)?;
        self.row.insert(reg);
        Ok(())
    }

    /// Takes register `reg` out of the set.
    pub fn remove(&mut self, reg: u32)
        ensures { (other : ℕ) →
            has_reg self.new other ≡ (has_reg self.old other && not (other == reg)) }
    {
        self.row.remove(reg);
    }
}
