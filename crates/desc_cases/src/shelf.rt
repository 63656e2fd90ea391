//! Files that stand in one text.
ghost use Rattle.std.specs.Prelude.{◌≤◌, OnOk, vec_len};

use byte_edge::{FetchFault, Files};
use std::alloc::Global;

/// The files of a text: each begins with a line of two dashes and its name. Another one fails.
#[derive(Drop)]
pub struct Shelf<'a> {
    /// The text.
    files: &'a str,
    /// The names that were asked for, a blank behind each.
    pub names: Vec<u8>,
    /// The room that the last call had.
    pub room: usize,
    faults: u64,
}

impl<'a> Shelf<'a> {
    /// The files of a text, of which none was asked for.
    pub fn new(alloc: Global, files: &'a str) -> Shelf<'a> {
        Shelf {
            files,
            names: Vec::new(alloc),
            room: 16_777_216,
            faults: 0,
        }
    }

    /// The text of a file.
    fn find(&self, name: &[u8]) -> Option<&'a str> {
        for piece in self.files.split("-- ").skip(1) {
            let (known, text) = piece.split_once("\n").unwrap_or((piece, ""));
            if known.as_bytes() == name {
                return Some(text.strip_suffix("\n").unwrap_or(text));
            }
        }
        None
    }
}

/// Appends the text of a file for which there is so much room.
fn put_text(text: Option<&str>, room: usize, out: &mut Vec<u8>) -> Result<(), FetchFault>
    ensures { OnOk result (vec_len out.new ≤ room) }
{
    let Some(text) = text else {
        return Err(FetchFault::Failed);
    };
    out.extend_from_slice(text.as_bytes())?;
    if out.len() > room {
        return Err(FetchFault::TooLong);
    }
    Ok(())
}

impl Files for Shelf<'_> {
    ghost use Rattle.std.specs.Prelude.{None};

    ghost holds = { λ _ _ _. ⊥ };

    ghost asked = { λ _. None };

    ghost fault_count = { λ shelf. shelf.faults };

    fn faults(&self) -> u64 {
        self.faults
    }

    fn fetch(&mut self, name: &[u8], room: usize, out: &mut Vec<u8>) -> Result<(), FetchFault> {
        out.clear();
        self.room = room;
        self.names.extend_from_slice(name)?;
        self.names.extend_from_slice(b" ")?;
        let put = put_text(self.find(name), room, out);
        if put.is_err() {
            out.clear();
        }
        if put == Err(FetchFault::Failed) {
            self.faults = self.faults.saturating_add(1);
        }
        put
    }
}
