//! Bytes in memory that are taken from the front.
ghost use Rattle.std.specs.Prelude.{◌≤◌, length};

use plain_data::{Items, Memory};
use std::alloc::Global;
use std::marker::Model;

/// Bytes that are taken from the front. Contracts see those that are left.
#[derive(Drop)]
pub struct Held {
    bytes: Items<u8>,
    at: usize,
    ghost within: { at ≤ length bytes },
}

impl Model for Held {
    ghost use Rattle.std.specs.Prelude.{List, ℕ, drop};

    ghost Value = { List ℕ };

    ghost view = { λ held. drop held.at held.bytes };
}

impl Held {
    ghost use Rattle.std.specs.Prelude.{◌≡◌, ◌++◌, IfOk, min, take};

    /// The bytes given, none taken yet. Copying them may find no memory.
    pub fn new(alloc: Global, bytes: &[u8]) -> Result<Held, Memory>
        ensures { IfOk result (λ held. held ≡ bytes.now) }
    {
        Ok(Held {
            bytes: Items::from_vec(Vec::from_slice(alloc, bytes)?),
            at: 0,
        })
    }

    /// Takes as many bytes as the slice has room for, and gives how many.
    pub fn take_into(&mut self, into: &mut [u8]) -> usize
        ensures count { result ≡ min (length into.new) (length self.old) }
        ensures bytes { self.old ≡ take result into.new ++ self.new }
    {
        let left = &self.bytes.as_slice()[self.at..];
        let count = into.len().min(left.len());
        into[..count].copy_from_slice(&left[..count]);
        self.at += count;
        count
    }
}
