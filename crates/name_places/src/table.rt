//! A list with the places of its names.
ghost use Rattle.std.specs.Prelude.{◌≡◌, List, ℕ, IfOk};
ghost use Rattle.std.specs.Option.{option_copied};
ghost use Rattle.name_places.specs.Names as spec;
ghost use Rattle.name_places.specs.Places.{place_in};

use crate::places::Places;
use plain_data::{Items, Memory};
use rtx_tree::Name;
use std::alloc::Global;
use std::marker::Model;

/// What has a name.
pub trait Named {
    ghost name: { Self → List ℕ };

    /// The name.
    fn name(&self) -> &[u8]
        ensures { result.now ≡ name self.now };
}

// A name is its own.
impl Named for Name {
    ghost name = { λ name. name };

    fn name(&self) -> &[u8] {
        self.bytes()
    }
}

/// A list. The first element of a name is found at once.
#[derive(Drop)]
pub struct NameTable<D: Named> {
    all: Items<D>,
    places: Places,
}

impl<D: Named> Model for NameTable<D> {
    ghost use Rattle.std.specs.Prelude.{◌≡◌, List, ℕ};
    ghost use Rattle.std.specs.Coded.{coded_list};
    ghost use Rattle.name_places.specs.Names.{place_named};
    ghost use Rattle.name_places.specs.Places.{place_in};

    ghost Value = { List D };

    ghost coded = { coded_list D.code };

    ghost view = { λ ds. ds.all };

    ghost invariant = { λ ds. (name : List ℕ) →
        place_in ds.places name ≡ place_named D.name ds.all name };
}

/// Where the names of some elements stand first.
fn places_of<D: Named>(alloc: Global, all: &[D]) -> Result<Places, Memory>
    ensures { IfOk result (λ places. (name : List ℕ) →
        place_in places name ≡ spec.place_named D.name all.now name) }
{
    let mut places = Places::new(alloc);
    for at in 0..all.len() {
        places.put(alloc, all[at].name(), at)?;
    }
    Ok(places)
}

impl<D: Named + Drop> NameTable<D> {
    /// The elements of a list.
    pub fn of(alloc: Global, all: Items<D>) -> Result<NameTable<D>, Memory>
        ensures { IfOk result (λ ds. ds ≡ all) }
    {
        let places = places_of(alloc, all.as_slice())?;
        Ok(NameTable { all, places })
    }
}

impl<D: Named> NameTable<D> {
    /// The elements, in order.
    pub fn as_slice(&self) -> &[D]
        ensures { result.now ≡ self.now }
    {
        self.all.as_slice()
    }

    /// Where the first element of a name stands.
    pub fn place_of(&self, name: &[u8]) -> Option<usize>
        ensures { result ≡ spec.place_named D.name self.now name.now }
    {
        self.places.place_of(name)
    }

    /// The first element of a name.
    pub fn first(&self, name: &[u8]) -> Option<&D>
        ensures { option_copied result ≡ spec.first_named D.name self.now name.now }
    {
        match self.place_of(name) {
            Some(at) => self.as_slice().get(at),
            None => None,
        }
    }
}
