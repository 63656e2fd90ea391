//! What is known of each register.
ghost use Rattle.std.specs.Prelude.{◌≡◌, ◌≢◌, IfOk, OnOk, OnErr};
ghost use Rattle.std.specs.Ordering.{nat_cmp};
ghost use Rattle.std.specs.FinMap as map;
ghost use Rattle.rtl_step.specs.Regs as spec;

use bits64::{Width, trunc};
use plain_data::Memory;
use rtx_tree::{HARD_REGS, reg_call_used};
use std::alloc::Global;
use std::collections::BTreeMap;
use std::marker::Model;

/// The known low bits of a register.
#[derive(Clone, Copy)]
pub struct Known {
    /// How many bits are known.
    pub width: Width,
    /// The bits that are known.
    pub value: u64,
}

/// Registers by number, each with its known low bits. One that is not there is unset. Contracts see
/// the map.
#[derive(Drop)]
pub struct Regs {
    table: BTreeMap<u64, Known>,
}

impl Model for Regs {
    ghost use Rattle.std.specs.Ordering.{nat_cmp};
    ghost use Rattle.std.specs.FinMap as map;
    ghost use Rattle.std.specs.Coded.{coded_ℕ};
    ghost use Rattle.rtl_step.specs.contracts.regs.Known as known;
    ghost use Rattle.rtl_step.specs.declared.regs.Known.{Known};

    ghost Value = { map.FinMap nat_cmp Known };

    ghost coded = { map.code coded_ℕ known.the_row.coded };

    ghost view = { λ regs. map.from_entries regs.table.entries };
}

impl Regs {
    /// No register is set. It takes no memory.
    pub fn new(alloc: Global) -> Regs
        ensures { result ≡ map.empty }
    {
        Regs {
            table: BTreeMap::new(alloc),
        }
    }

    /// What is known of a register, or `None` where it is unset.
    fn known(&self, reg: u64) -> Option<Known>
        ensures { result ≡ map.get self.now reg }
    {
        self.table.get(&reg).copied()
    }

    /// A register's value in a width, or `None` where fewer bits are known. Register 0 is 0.
    pub fn value(&self, reg: u64, w: Width) -> Option<u64>
        ensures { result ≡ spec.reg_value self.now reg w }
    {
        if reg == 0 {
            return Some(0);
        }
        known_in(self.known(reg)?, w)
    }

    /// Sets a register. Register 0 keeps nothing. After `Memory` all is as before.
    pub fn set(&mut self, reg: u64, known: Known) -> Result<(), Memory>
        ensures ok { OnOk result (self.new ≡ spec.with_reg self.old reg known) }
        ensures err { OnErr result (self.new ≡ self.old) }
    {
        if reg == 0 {
            return Ok(());
        }
        self.insert(reg, known)
    }

    fn insert(&mut self, reg: u64, known: Known) -> Result<(), Memory>
        ensures ok { OnOk result (self.new ≡ map.insert self.old reg known) }
        ensures err { OnErr result (self.new ≡ self.old) }
    {
        self.table.insert(reg, known)?;
        Ok(())
    }

    /// Unsets a register.
    pub fn unset(&mut self, reg: u64)
        ensures { self.new ≡ spec.without_reg self.old reg }
    {
        self.table.remove(&reg);
    }

    /// Unsets every register that a call need not preserve.
    pub fn unset_call_used(&mut self)
        ensures { self.new ≡ spec.preserved self.old }
    {
        for reg in 0..HARD_REGS {
            if reg_call_used(reg) {
                self.unset(u64::from(reg));
            }
        }
    }

    /// A copy of the registers.
    pub fn copy(&self) -> Result<Regs, Memory>
        ensures { IfOk result (λ regs. regs ≡ self.now) }
    {
        Ok(Regs {
            table: self.table.clone()?,
        })
    }
}

/// The low bits of what is known, where so many are known.
fn known_in(known: Known, w: Width) -> Option<u64>
    ensures { result ≡ spec.known_in w known }
{
    if w.bits() <= known.width.bits() {
        Some(trunc(known.value, w))
    } else {
        None
    }
}
