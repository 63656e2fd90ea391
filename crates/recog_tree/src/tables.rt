//! The keys of a half of a description's forms.
ghost use Rattle.std.specs.Prelude.{◌≡◌, ◌^◌, ◌<◌, IfOk, MatchOption, length, map};
ghost use Rattle.recog_tree.specs.Key as spec;
ghost use Rattle.recog_tree.specs.machine.Tables.{AreTablesOf, NoneTried, IsNext};
ghost use Rattle.recog_tree.specs.machine.Tables as machine;

use crate::key::{Key, entry_key, is_tried_by};
use md_forms::{Entry, Forms};
use md_recog::Half;
use plain_data::{Items, Memory};
use std::alloc::Global;

/// What a half of forms is found by.
#[derive(Drop)]
pub struct Tables {
    keys: Items<Option<Key>>,
}

fn keys_of(alloc: Global, half: Half, forms: &[Entry]) -> Result<Items<Option<Key>>, Memory>
    ensures { IfOk result (λ keys. keys ≡ map (spec.entry_key half) forms.now) }
{
    let mut keys = Items::new(alloc);
    for entry in forms {
        keys.push(entry_key(half, entry))?;
    }
    Ok(keys)
}

impl Tables {
    /// The tables of a half of a description's forms.
    pub fn of(alloc: Global, half: Half, forms: &Forms) -> Result<Tables, Memory>
        ensures { IfOk result (λ tables. AreTablesOf half tables forms.now) }
    {
        let keys = keys_of(alloc, half, forms.as_slice())?;
        Ok(Tables { keys })
    }
}

/// Whether what stands at a place is tried for an instruction with a key.
fn is_tried_at(keys: &[Option<Key>], insn: Key, place: u32) -> bool
    ensures { result ≡ machine.is_tried_at keys.now insn place }
{
    match keys.get(place as usize) {
        Some(key) => is_tried_by(insn, *key),
        None => false,
    }
}

/// The first place from another on of which what stands there is tried for an instruction with a
/// key.
fn next_of(keys: &[Option<Key>], insn: Key, from: u32) -> Option<u32>
    requires { length keys.now < 2 ^ 32 }
    ensures { MatchOption result (NoneTried keys.now insn from (length keys.now)) (λ place.
        IsNext keys.now insn from place) }
{
    for place in from..keys.len() as u32 {
        if is_tried_at(keys, insn, place) {
            return Some(place);
        }
    }
    None
}

/// The first form from an index on that is tried for an instruction with a key.
pub fn next_tried(tables: &Tables, insn: Key, from: u32) -> Option<u32>
    requires { length tables.now.keys < 2 ^ 32 }
    ensures { MatchOption result (NoneTried tables.now.keys insn from (length tables.now.keys))
        (λ place. IsNext tables.now.keys insn from place) }
{
    next_of(tables.keys.as_slice(), insn, from)
}
