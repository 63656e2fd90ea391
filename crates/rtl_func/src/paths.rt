//! Whether control reaches the end of a chain.
ghost use Rattle.std.specs.Prelude.{◌≡◌, ◌+◌, ◌<◌, ◌^◌, ◌↔◌, [], ℕ, IfOk, IsTrue, OnOk, false, length, replicate};
ghost use Rattle.std.specs.Option.{option_to_list};
ghost use Rattle.std.specs.Ordering.{nat_cmp};
ghost use Rattle.std.specs.BTreeMap as map;
ghost use Rattle.rtx_tree.specs.Patterns.{place_of};
ghost use Rattle.rtl_func.specs.Paths.{ReachesExit};
ghost use Rattle.rtl_func.specs.machine.Search as spec;
ghost use Rattle.rtl_func.specs.Successors.{successors_of};

use crate::edges::successors_by;
use crate::labels::{Labels, labels_of};
use plain_data::{Items, Memory};
use rtx_tree::{Function, Insn};
use std::alloc::Global;

/// A search along successors.
#[derive(Drop)]
pub struct Search {
    /// For each place, the exit last, whether it was found.
    found: Items<bool>,
    /// The places that were found and are still to be looked at.
    left: Items<u32>,
}

impl Search {
    fn is_found(&self, place: u32) -> bool
        ensures { result ≡ spec.is_found self.now place }
    {
        self.found
            .as_slice()
            .get(place as usize)
            .copied()
            .unwrap_or(true)
    }

    fn find(&mut self, place: u32) -> Result<(), Memory>
        ensures { OnOk result (self.new ≡ spec.with_place self.old place) }
    {
        if self.is_found(place) {
            return Ok(());
        }
        self.left.push(place)?;
        self.found.replace(place as usize, true);
        Ok(())
    }

    fn find_some(&mut self, place: Option<u32>) -> Result<(), Memory>
        ensures { OnOk result (self.new ≡ spec.with_places self.old (option_to_list place)) }
    {
        match place {
            None => Ok(()),
            Some(place) => self.find(place),
        }
    }
}

/// `count` places, none of them found.
fn none_found(alloc: Global, count: usize) -> Result<Items<bool>, Memory>
    ensures { IfOk result (λ found. found ≡ replicate count false) }
{
    let found = vec![in alloc; false; count]?;
    Ok(Items::from_vec(found))
}

/// The search at its start.
fn started(alloc: Global, insns: &[Insn]) -> Result<Search, Memory>
    requires { length insns.now < 2 ^ 32 }
    ensures { IfOk result (λ search. spec.IsSearch insns.now search) }
{
    let found = none_found(alloc, insns.len() + 1)?;
    let mut search = Search {
        found,
        left: Items::new(alloc),
    };
    search.find(0)?;
    Ok(search)
}

/// Finds the successors of a place.
fn look_at(labels: &Labels, insns: &[Insn], search: &mut Search, place: u32) -> Result<(), Memory>
    requires short { length insns.now < 2 ^ 32 }
    requires labels { (uid : ℕ) → map.get nat_cmp labels.now uid ≡ place_of uid insns.now }
    ensures { OnOk result (search.new ≡ spec.with_places search.old
        (successors_of insns.now place)) }
{
    let next = successors_by(labels, insns, place);
    search.find_some(next.first)?;
    search.find_some(next.second)?;
    Ok(())
}

/// Looks at places until none is left.
fn search_on(labels: &Labels, insns: &[Insn], search: &mut Search) -> Result<(), Memory>
    requires short { length insns.now < 2 ^ 32 }
    requires labels { (uid : ℕ) → map.get nat_cmp labels.now uid ≡ place_of uid insns.now }
    requires search { spec.IsSearch insns.now search.old }
    ensures search { OnOk result (spec.IsSearch insns.now search.new) }
    ensures done { OnOk result (search.new.left ≡ []) }
{
    while let Some(place) = search.left.pop() {
        look_at(labels, insns, search, place)?;
    }
    Ok(())
}

/// Whether a path of successors leads from the function's first place to its exit, the place past
/// the last.
pub fn reaches_exit(alloc: Global, f: &Function) -> Result<bool, Memory>
    requires { length f.now.insns < 2 ^ 32 }
    ensures { IfOk result (λ reaches. IsTrue reaches ↔ ReachesExit f.now.insns) }
{
    let insns = f.insns.as_slice();
    let labels = labels_of(alloc, insns)?;
    let mut search = started(alloc, insns)?;
    search_on(&labels, insns, &mut search)?;
    Ok(search.is_found(insns.len() as u32))
}
