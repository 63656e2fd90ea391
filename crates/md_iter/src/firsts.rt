//! Where names of kinds stand first.
ghost use Rattle.std.specs.Prelude.{◌≡◌, ◌&&◌, Bool, List, ℕ, None, Some, OnOk, if◌then◌else◌};
ghost use Rattle.std.specs.Option.{option_or};
ghost use Rattle.std.specs.Str.{bytes_eq};
ghost use Rattle.md_iter.specs.machine.Firsts.{agree, of_kind, place_of_kind};

use crate::definition::DefinitionKind;
use name_places::Places;
use plain_data::Memory;
use std::alloc::Global;

/// Where the names of each kind stand first.
#[derive(Drop)]
pub struct KindPlaces {
    modes: Places,
    codes: Places,
    ints: Places,
}

impl KindPlaces {
    /// No name stands anywhere.
    pub fn new(alloc: Global) -> KindPlaces
        ensures { (kind : DefinitionKind) (name : List ℕ) → place_of_kind result kind name ≡ None }
    {
        KindPlaces {
            modes: Places::new(alloc),
            codes: Places::new(alloc),
            ints: Places::new(alloc),
        }
    }

    fn of_kind(&self, kind: DefinitionKind) -> &Places
        ensures { result.now ≡ of_kind self.now kind }
    {
        match kind {
            DefinitionKind::Mode => &self.modes,
            DefinitionKind::Code => &self.codes,
            DefinitionKind::Int => &self.ints,
        }
    }

    /// Where a name of a kind stands first.
    pub fn place_of(&self, kind: DefinitionKind, name: &[u8]) -> Option<usize>
        ensures { result ≡ place_of_kind self.now kind name.now }
    {
        self.of_kind(kind).place_of(name)
    }

    /// A name of a kind stands at a place, which counts where it stands nowhere yet.
    pub fn put(
        &mut self,
        alloc: Global,
        kind: DefinitionKind,
        name: &[u8],
        place: usize,
    ) -> Result<(), Memory>
        ensures { OnOk result ((other_kind : DefinitionKind) (other : List ℕ) →
            place_of_kind self.new other_kind other ≡
            option_or (place_of_kind self.old other_kind other)
            (if agree kind other_kind && bytes_eq name.now other then Some place else None)) }
    {
        match kind {
            DefinitionKind::Mode => self.modes.put(alloc, name, place),
            DefinitionKind::Code => self.codes.put(alloc, name, place),
            DefinitionKind::Int => self.ints.put(alloc, name, place),
        }
    }
}
