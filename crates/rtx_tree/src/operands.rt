//! The operands of a pattern: trees by operand number.
ghost use Rattle.std.specs.Prelude.{◌≡◌, ◌≢◌, ℕ, [], OnOk, OnErr, Option};
ghost use Rattle.std.specs.Option.{option_copied};
ghost use Rattle.rtx_tree.specs.Operands.{operand_at, put_at};

use crate::tree::Rtx;
use plain_data::Memory;
use std::alloc::Global;
use std::collections::BTreeMap;
use std::marker::Model;

/// Trees by operand number, some of them missing. Contracts see the list of optional trees, in
/// which each stands at its number. What is kept is only those that are there, in a map by number:
/// a great number costs nothing, and to find one the others are not gone through.
#[derive(Drop)]
pub struct Operands {
    trees: BTreeMap<usize, Rtx>,
}

impl Model for Operands {
    ghost use Rattle.std.specs.Prelude.{List, Option};
    ghost use Rattle.std.specs.Coded.{coded_list, coded_option};
    ghost use Rattle.rtx_tree.specs.declared.tree.Rtx.{Rtx};
    ghost use Rattle.rtx_tree.specs.contracts.tree.Rtx as rtx;
    ghost use Rattle.rtx_tree.specs.machine.Placed.{placed};

    ghost Value = { List (Option Rtx) };

    ghost coded = { coded_list (coded_option rtx.the_row.coded) };

    ghost view = { λ operands. placed operands.trees.entries };
}

impl Operands {
    /// No operand. It takes no memory.
    pub fn new(alloc: Global) -> Operands
        ensures { result ≡ [] }
    {
        Operands {
            trees: BTreeMap::new(alloc),
        }
    }

    /// The tree with this number, or `None` where there is none.
    pub fn get(&self, number: usize) -> Option<&Rtx>
        ensures { option_copied result ≡ operand_at self.now number }
    {
        self.trees.get(&number)
    }

    /// Gives `number` its tree, in place of the one it may have. After `Memory` the operands are as
    /// before.
    pub fn put(&mut self, number: u32, tree: Rtx) -> Result<(), Memory>
        ensures ok { OnOk result (self.new ≡ put_at self.old number tree) }
        ensures placed { OnOk result (operand_at self.new number ≡ Option.Some tree) }
        ensures others { OnOk result ((k : ℕ) → k ≢ number →
            operand_at self.new k ≡ operand_at self.old k) }
        ensures err { OnErr result (self.new ≡ self.old) }
    {
        self.trees.insert(number as usize, tree)?;
        Ok(())
    }
}
