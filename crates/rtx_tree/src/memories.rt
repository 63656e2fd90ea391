//! Bytes of memory by address.
ghost use Rattle.std.specs.Prelude.{◌≡◌, ◌↔◌, ◌<◌, [], ◌∷◌, ◌++◌, IsTrue, IfOk, OnOk, OnErr, MatchOption, is_some, slice_get, length};
ghost use Rattle.rtx_tree.specs.Memories as spec;
ghost use Rattle.rtx_tree.specs.Memories.{IsAbove, IsOrdered, IsPlaceOf};

use plain_data::{Items, Memory};
use std::alloc::Global;
use std::marker::Model;

/// A byte of memory.
#[derive(Clone, Copy)]
pub struct MemByte {
    /// The byte's address.
    pub address: u64,
    /// The byte itself.
    pub byte: u8,
}

/// Bytes of memory, each address once, in increasing order of addresses. Contracts see the list.
#[derive(Drop)]
pub struct Memories {
    bytes: Items<MemByte>,
}

impl Model for Memories {
    ghost use Rattle.std.specs.Prelude.{List};
    ghost use Rattle.std.specs.Coded.{coded_list};
    ghost use Rattle.rtx_tree.specs.declared.memories.MemByte.{MemByte};
    ghost use Rattle.rtx_tree.specs.contracts.memories.MemByte as mem_byte;
    ghost use Rattle.rtx_tree.specs.Memories.{IsOrdered};

    ghost Value = { List MemByte };

    ghost coded = { coded_list mem_byte.the_row.coded };

    ghost view = { λ memories. memories.bytes };

    ghost invariant = { λ memories. IsOrdered memories.bytes };
}

impl Memories {
    /// No memory. It takes none either.
    pub fn new(alloc: Global) -> Memories
        ensures { result ≡ [] }
    {
        Memories {
            bytes: Items::new(alloc),
        }
    }

    /// The bytes, in increasing order of addresses.
    pub fn bytes(&self) -> &[MemByte]
        ensures bytes { result.now ≡ self.now }
        ensures ordered { IsOrdered self.now }
    {
        self.bytes.as_slice()
    }

    /// Adds a byte above all others. After `Memory` all is as before.
    pub fn push(&mut self, byte: MemByte) -> Result<(), Memory>
        requires { IsAbove self.old byte.address }
        ensures ok { OnOk result (self.new ≡ self.old ++ byte ∷ []) }
        ensures err { OnErr result (self.new ≡ self.old) }
    {
        self.bytes.push(byte)
    }

    /// Whether an address is above all others.
    pub fn is_above(&self, address: u64) -> bool
        ensures { IsTrue result ↔ IsAbove self.now address }
    {
        match self.bytes.as_slice().last() {
            None => true,
            Some(last) => last.address < address,
        }
    }

    /// The memory of a list of bytes. It takes no memory.
    pub fn from_items(bytes: Items<MemByte>) -> Memories
        requires { IsOrdered bytes }
        ensures { result ≡ bytes }
    {
        Memories { bytes }
    }

    /// The byte at an address, or `None` where memory does not have the address.
    pub fn byte_at(&self, address: u64) -> Option<u8>
        ensures { result ≡ spec.byte_at self.now address }
    {
        let place = place_of(self.bytes.as_slice(), address)?;
        Some(self.bytes.item(place).byte)
    }

    /// Puts a byte at an address, and answers whether memory has the address. Else all is as
    /// before.
    pub fn set_byte(&mut self, address: u64, byte: u8) -> bool
        ensures bytes { self.new ≡ spec.with_byte self.old address byte }
        ensures has { result ≡ is_some (spec.byte_at self.old address) }
    {
        match place_of(self.bytes.as_slice(), address) {
            None => false,
            Some(place) => {
                self.bytes.replace(place, MemByte { address, byte });
                true
            }
        }
    }

    /// A copy of the memory.
    pub fn copy(&self, alloc: Global) -> Result<Memories, Memory>
        ensures { IfOk result (λ memory. memory ≡ self.now) }
    {
        let bytes = Vec::from_slice(alloc, self.bytes())?;
        Ok(Memories::from_items(Items::from_vec(bytes)))
    }
}

/// The place in the list of the byte at an address, found by halves.
fn place_of(bytes: &[MemByte], address: u64) -> Option<usize>
    requires { IsOrdered bytes.now }
    ensures { MatchOption result (spec.byte_at bytes.now address ≡ None)
        (IsPlaceOf bytes.now address) }
{
    let mut low = 0;
    let mut high = bytes.len();
    while low < high {
        let middle = low + (high - low) / 2;
        let found = bytes[middle].address;
        if found == address {
            return Some(middle);
        }
        if found < address {
            low = middle + 1;
        } else {
            high = middle;
        }
    }
    None
}
