//! Byte strings: names of functions, symbols, forms and files.
ghost use Rattle.std.specs.Prelude.{◌≡◌, ◌↔◌, [], IfOk, IsTrue};

use plain_data::Memory;
use std::alloc::Global;
use std::marker::Model;

/// A byte string. Contracts see it as the list of its bytes.
#[derive(Debug, Drop)]
pub struct Name {
    text: Vec<u8>,
}

impl Model for Name {
    ghost use Rattle.std.specs.Prelude.{List, ℕ};

    ghost Value = { List ℕ };

    ghost view = { λ name. name.text.items };
}

impl Name {
    /// A name of these bytes.
    pub fn of(alloc: Global, bytes: &[u8]) -> Result<Name, Memory>
        ensures { IfOk result (λ name. name ≡ bytes.now) }
    {
        Ok(Name {
            text: Vec::from_slice(alloc, bytes)?,
        })
    }

    /// The name of no bytes. It takes no memory.
    pub fn empty(alloc: Global) -> Name
        ensures { result ≡ [] }
    {
        Name {
            text: Vec::new(alloc),
        }
    }

    /// The name of a vector's bytes. It takes no memory.
    pub fn from_vec(bytes: Vec<u8>) -> Name
        ensures { result ≡ bytes.items }
    {
        Name { text: bytes }
    }

    /// A vector of the name's bytes. It takes no memory.
    pub fn into_vec(self) -> Vec<u8>
        ensures { result.items ≡ self }
    {
        let Name { text } = self;
        text
    }

    /// The bytes, in order.
    pub fn bytes(&self) -> &[u8]
        ensures { result.now ≡ self.now }
    {
        self.text.as_slice()
    }

    /// Whether two names have the same bytes.
    pub fn same(&self, other: &Name) -> bool
        ensures { IsTrue result ↔ (self.now ≡ other.now) }
    {
        self.bytes() == other.bytes()
    }

    /// A copy of the name. Nearly all names of trees are empty: such a copy makes no call.
    pub fn copy(&self, alloc: Global) -> Result<Name, Memory>
        ensures { IfOk result (λ name. name ≡ self.now) }
    {
        if self.text.is_empty() {
            Ok(Name::empty(alloc))
        } else {
            Name::of(alloc, self.bytes())
        }
    }
}
