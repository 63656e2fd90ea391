//! The names of functions.
ghost use Rattle.std.specs.Prelude.{◌≡◌, ◌||◌, List, ℕ, [], OnOk};
ghost use Rattle.std.specs.Str.{bytes_eq};
ghost use Rattle.rtl_func.specs.Names as spec;

use plain_data::Memory;
use rtx_tree::Name;
use std::alloc::Global;
use std::collections::HashSet;

/// The names of functions. A name is looked up at once.
#[derive(Drop)]
pub struct Names {
    texts: HashSet<Vec<u8>>,
}

impl Names {
    /// No names.
    pub fn new(alloc: Global) -> Names
        ensures { spec.AreNames [] result }
    {
        Names {
            texts: HashSet::new(alloc),
        }
    }

    /// Whether a name is among them.
    pub fn has(&self, name: &Name) -> bool
        ensures { result ≡ spec.is_among self.now name.now }
    {
        self.texts.contains(name.bytes())
    }

    /// Puts a name among them.
    pub fn put(&mut self, alloc: Global, name: &Name) -> Result<(), Memory>
        ensures { OnOk result ((other : List ℕ) →
            spec.is_among self.new other ≡
            (spec.is_among self.old other || bytes_eq name.now other)) }
    {
        self.texts.insert(Vec::from_slice(alloc, name.bytes())?)?;
        Ok(())
    }
}
