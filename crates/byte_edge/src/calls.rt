//! The calls of an object in memory, of which chosen ones are to fail.
ghost use Rattle.std.specs.Prelude.{◌≡◌, ◌≤◌, ◌↔◌, IsTrue, IfOk};
ghost use Rattle.byte_edge.specs.Causes.{one_more};
ghost use Rattle.byte_edge.specs.Calls.{fresh, IsToFail, passed};

use plain_data::{Items, Memory};
use std::alloc::Global;

/// How many calls were made, which ones are to fail, and how many failed.
#[derive(Drop)]
pub struct Calls {
    made: u64,
    failing: Items<u64>,
    faults: u64,
}

impl Calls {
    /// No call yet. Those with these numbers, counted from 1, are to fail.
    pub fn new(alloc: Global, failing: &[u64]) -> Result<Calls, Memory>
        ensures { IfOk result (λ calls. calls ≡ fresh failing.now) }
    {
        Ok(Calls {
            made: 0,
            failing: Items::from_vec(Vec::from_slice(alloc, failing)?),
            faults: 0,
        })
    }

    /// Counts one call more, and says whether it is to fail.
    pub fn begin(&mut self) -> bool
        ensures fails { IsTrue result ↔ IsToFail self.old }
        ensures counted { self.new ≡ passed self.old }
    {
        self.made = self.made.saturating_add(1);
        self.failing.as_slice().contains(&self.made)
    }

    /// Counts one fault more, up to the last value.
    pub fn fail(&mut self)
        ensures counted { self.new ≡ record self.old { faults = one_more self.old.faults } }
        ensures later { self.old.faults ≤ self.new.faults }
    {
        self.faults = self.faults.saturating_add(1);
    }

    /// How many calls failed.
    pub fn faults(&self) -> u64
        ensures { result ≡ self.now.faults }
    {
        self.faults
    }
}
