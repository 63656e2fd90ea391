//! Where names stand first.
ghost use Rattle.std.specs.Prelude.{◌≡◌, Bool, List, ℕ, None, Some, OnOk, if◌then◌else◌};
ghost use Rattle.std.specs.Option.{option_or};
ghost use Rattle.std.specs.Str.{bytes_eq};
ghost use Rattle.name_places.specs.Places.{place_in};

use indexmap::IndexMap;
use plain_data::Memory;
use std::alloc::Global;

/// Where names stand first. A name is looked up at once.
#[derive(Drop)]
pub struct Places {
    by_name: IndexMap<Vec<u8>, usize>,
}

impl Places {
    /// No name stands anywhere.
    pub fn new(alloc: Global) -> Places
        ensures { (name : List ℕ) → place_in result name ≡ None }
    {
        Places {
            by_name: IndexMap::new(alloc),
        }
    }

    /// Where a name stands first.
    pub fn place_of(&self, name: &[u8]) -> Option<usize>
        ensures { result ≡ place_in self.now name.now }
    {
        self.by_name.get(name).copied()
    }

    /// A name stands at a place, which counts where it stands nowhere yet.
    pub fn put(&mut self, alloc: Global, name: &[u8], place: usize) -> Result<(), Memory>
        ensures { OnOk result ((other : List ℕ) →
            place_in self.new other ≡ option_or (place_in self.old other)
            (if bytes_eq name.now other then Some place else None)) }
    {
        if self.place_of(name).is_none() {
            self.by_name.insert(Vec::from_slice(alloc, name)?, place)?;
        }
        Ok(())
    }
}
