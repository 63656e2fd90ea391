//! Numbers of operands among which one is found at once.
ghost use Rattle.std.specs.Prelude.{◌≡◌, IfOk};
ghost use Rattle.md_forms.specs.Checks.{has};

use plain_data::{Items, Memory};
use std::alloc::Global;
use std::collections::BTreeSet;
use std::marker::Model;

/// The numbers of some operands, in the order of the text. One is looked up by halves.
#[derive(Drop)]
pub struct OperandNumbers {
    all: Items<u64>,
    sorted: BTreeSet<u64>,
}

impl Model for OperandNumbers {
    ghost use Rattle.std.specs.Prelude.{◌≡◌, List, ℕ};
    ghost use Rattle.std.specs.Coded.{coded_list, coded_ℕ};
    ghost use Rattle.std.specs.Ordering.{nat_cmp};
    ghost use Rattle.std.specs.BTreeSet as set;
    ghost use Rattle.md_forms.specs.Checks.{has};

    ghost Value = { List ℕ };

    ghost coded = { coded_list coded_ℕ };

    ghost view = { λ numbers. numbers.all };

    ghost invariant = { λ numbers. (n : ℕ) →
        set.contains nat_cmp numbers.sorted n ≡ has numbers.all n };
}

impl OperandNumbers {
    /// The numbers of a list.
    pub fn of(alloc: Global, all: Items<u64>) -> Result<OperandNumbers, Memory>
        ensures { IfOk result (λ numbers. numbers ≡ all) }
    {
        let mut sorted = BTreeSet::new(alloc);
        for at in (0..all.len()).rev() {
            sorted.insert(*all.item(at))?;
        }
        Ok(OperandNumbers { all, sorted })
    }

    /// Whether a number is one of them.
    pub fn has(&self, number: u64) -> bool
        ensures { result ≡ has self.now number }
    {
        self.sorted.contains(&number)
    }
}
