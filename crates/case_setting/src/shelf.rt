//! The files of a case.
ghost use Rattle.std.specs.Prelude.{◌≡◌, ◌↔◌, ℕ, List, Contains, IsTrue, None};
ghost use Rattle.byte_edge.specs.Stored.{file_of};
ghost use Rattle.byte_edge.specs.ByteFiles.{entries_of};

use crate::fault::Fault;
use crate::setting::{Setting, failing, part_bytes};
use byte_edge::ByteFiles;
use case_text::Part;
use plain_data::Items;
use std::alloc::Global;

/// Files in memory, and their names.
#[derive(Drop)]
struct Shelf {
    files: ByteFiles,
    names: Items<Items<u8>>,
    ghost others: { (name : List ℕ) →
        ¬ Contains names name → file_of (entries_of files) name ≡ None },
}

/// Whether a name is among names.
fn is_among(names: &[Items<u8>], name: &[u8]) -> bool
    ensures { IsTrue result ↔ Contains names.now name.now }
{
    names.iter().any(|known| known.as_slice() == name)
}

impl Shelf {
    /// Puts a file, unless there is one of its name.
    fn put(&mut self, alloc: Global, name: &[u8], bytes: &[u8]) -> Result<(), Fault> {
        if !is_among(self.names.as_slice(), name) {
            self.names
                .push(Items::from_vec(Vec::from_slice(alloc, name)?))?;
            self.files.put_file(name, bytes)?;
        }
        Ok(())
    }

    /// Puts the file that a part is, if it is one.
    fn put_part(&mut self, alloc: Global, part: &Part) -> Result<(), Fault> {
        match part.head.strip_prefix("-- file ") {
            Some(name) => self.put(alloc, name.as_bytes(), &part_bytes(alloc, part)?),
            None => Ok(()),
        }
    }
}

/// No file yet. The calls that a setting says are to fail.
fn empty_shelf(alloc: Global, setting: Setting) -> Result<Shelf, Fault> {
    let fetches = failing(alloc, setting, "-- fails fetch ")?;
    Ok(Shelf {
        files: ByteFiles::new(alloc, &fetches)?,
        names: Items::new(alloc),
    })
}

/// The files of a case, its own before the shared ones, of which the first of a name counts.
pub fn shelf_of(alloc: Global, setting: Setting) -> Result<ByteFiles, Fault> {
    let mut shelf = empty_shelf(alloc, setting)?;
    for part in setting.own.iter().chain(setting.shared) {
        shelf.put_part(alloc, part)?;
    }
    Ok(shelf.files)
}
