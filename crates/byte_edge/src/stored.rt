//! Files in memory, and the names that were asked for.
ghost use Rattle.std.specs.Prelude.{◌≡◌, ◌∷◌, ◌++◌, [], None, OnOk, OnErr};
ghost use Rattle.std.specs.Option.{option_map};
ghost use Rattle.byte_edge.specs.Stored.{entry, file_of};

use plain_data::{Items, Memory};
use std::alloc::Global;

/// A file in memory.
#[derive(Drop)]
pub struct Entry {
    name: Items<u8>,
    bytes: Items<u8>,
}

/// Files in memory, no two of one name, and the names that were asked for.
#[derive(Drop)]
pub struct Stored {
    alloc: Global,
    entries: Items<Entry>,
    asked: Items<Items<u8>>,
}

impl Stored {
    /// No file. It takes no memory.
    pub fn new(alloc: Global) -> Stored
        ensures entries { result.entries ≡ [] }
        ensures asked { result.asked ≡ [] }
    {
        Stored {
            alloc,
            entries: Items::new(alloc),
            asked: Items::new(alloc),
        }
    }

    /// Puts one file more. Its name isn't there before. After `Memory` all is as before.
    pub fn put(&mut self, name: &[u8], bytes: &[u8]) -> Result<(), Memory>
        requires { file_of self.old.entries name.now ≡ None }
        ensures ok { OnOk result (self.new ≡
            record self.old { entries = self.old.entries ++ entry name.now bytes.now ∷ [] }) }
        ensures err { OnErr result (self.new ≡ self.old) }
    {
        let name = Items::from_slice(self.alloc, name)?;
        let bytes = Items::from_slice(self.alloc, bytes)?;
        self.entries.push(Entry { name, bytes })
    }

    /// Puts the name at the end of those asked for. After `Memory` all is as before.
    pub fn ask(&mut self, name: &[u8]) -> Result<(), Memory>
        ensures ok { OnOk result (self.new ≡ record self.old {
          asked = self.old.asked ++ name.now ∷ [];
        }) }
        ensures err { OnErr result (self.new ≡ self.old) }
    {
        let name = Items::from_slice(self.alloc, name)?;
        self.asked.push(name)
    }

    /// The bytes of the file of a name, if it is there.
    pub fn find(&self, name: &[u8]) -> Option<&[u8]>
        ensures { option_map (λ bytes. bytes.now) result ≡ file_of self.now.entries name.now }
    {
        let entries = self.entries.as_slice();
        let found = entries.iter().find(|entry| entry.name.as_slice() == name)?;
        Some(found.bytes.as_slice())
    }
}
