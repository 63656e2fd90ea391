//! Lists whose elements have kinds and names.
ghost use Rattle.std.specs.Prelude.{◌≡◌, ◌&&◌, Bool, List, ℕ, IfOk, position};
ghost use Rattle.std.specs.List.{find};
ghost use Rattle.std.specs.Option.{option_copied};
ghost use Rattle.std.specs.Str.{bytes_eq};
ghost use Rattle.md_iter.specs.machine.Firsts.{agree, place_of_kind};

use crate::definition::DefinitionKind;
use crate::firsts::KindPlaces;
use plain_data::{Items, Memory};
use std::alloc::Global;
use std::marker::Model;

/// What has a kind and a name.
pub trait Kinded {
    ghost use Rattle.std.specs.Prelude.{◌≡◌, List, ℕ};
    ghost use Rattle.md_iter.specs.declared.definition.DefinitionKind.{DefinitionKind};

    ghost kind: { Self → DefinitionKind };

    ghost name: { Self → List ℕ };

    /// The kind.
    fn kind(&self) -> DefinitionKind
        ensures { result ≡ kind self.now };

    /// The name.
    fn name(&self) -> &[u8]
        ensures { result.now ≡ name self.now };
}

/// A list. The first element of a kind and a name is found at once.
#[derive(Drop)]
pub struct KindedItems<D: Kinded> {
    all: Items<D>,
    places: KindPlaces,
}

impl<D: Kinded> Model for KindedItems<D> {
    ghost use Rattle.std.specs.Prelude.{◌≡◌, ◌&&◌, List, ℕ, position};
    ghost use Rattle.std.specs.Coded.{coded_list};
    ghost use Rattle.std.specs.Str.{bytes_eq};
    ghost use Rattle.md_iter.specs.declared.definition.DefinitionKind.{DefinitionKind};
    ghost use Rattle.md_iter.specs.machine.Firsts.{agree, place_of_kind};

    ghost Value = { List D };

    ghost coded = { coded_list D.code };

    ghost view = { λ ds. ds.all };

    ghost invariant = { λ ds. (kind : DefinitionKind) (name : List ℕ) →
        place_of_kind ds.places kind name ≡
        position (λ d. agree (D.kind d) kind && bytes_eq (D.name d) name) ds.all };
}

/// Where the names of some elements stand first, by kind.
fn places_of<D: Kinded>(alloc: Global, all: &[D]) -> Result<KindPlaces, Memory>
    ensures { IfOk result (λ places. (kind : DefinitionKind) (name : List ℕ) →
        place_of_kind places kind name ≡
        position (λ d. agree (D.kind d) kind && bytes_eq (D.name d) name) all.now) }
{
    let mut places = KindPlaces::new(alloc);
    for at in 0..all.len() {
        let one = &all[at];
        places.put(alloc, one.kind(), one.name(), at)?;
    }
    Ok(places)
}

impl<D: Kinded + Drop> KindedItems<D> {
    /// The elements of a list.
    pub fn of(alloc: Global, all: Items<D>) -> Result<KindedItems<D>, Memory>
        ensures { IfOk result (λ ds. ds ≡ all) }
    {
        let places = places_of(alloc, all.as_slice())?;
        Ok(KindedItems { all, places })
    }
}

impl<D: Kinded> KindedItems<D> {
    /// The elements, in order.
    fn as_slice(&self) -> &[D]
        ensures { result.now ≡ self.now }
    {
        self.all.as_slice()
    }

    /// Where the first element of a kind and a name stands.
    fn place_of(&self, kind: DefinitionKind, name: &[u8]) -> Option<usize>
        ensures { result ≡
            position (λ d. agree (D.kind d) kind && bytes_eq (D.name d) name.now) self.now }
    {
        self.places.place_of(kind, name)
    }

    /// The first element of a kind and a name.
    pub fn first(&self, kind: DefinitionKind, name: &[u8]) -> Option<&D>
        ensures { option_copied result ≡
            find (λ d. agree (D.kind d) kind && bytes_eq (D.name d) name.now) self.now }
    {
        match self.place_of(kind, name) {
            Some(at) => self.as_slice().get(at),
            None => None,
        }
    }
}
