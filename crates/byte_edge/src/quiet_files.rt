//! Files in memory that never fail.
ghost use Rattle.std.specs.Prelude.{◌≡◌, [], OnOk, OnErr};

use crate::files::{FetchFault, Files};
use crate::stored::Stored;
use plain_data::Memory;
use std::alloc::Global;

/// Files in memory. No call fails: a name that isn't there has no bytes.
#[derive(Drop)]
pub struct QuietFiles {
    stored: Stored,
}

impl QuietFiles {
    ghost use Rattle.std.specs.Prelude.{◌++◌, ◌∷◌, None};
    ghost use Rattle.byte_edge.specs.Stored.{entry, file_of, PutsFile};
    ghost use Rattle.byte_edge.specs.Quiet.{quiet_entries_of, quiet_asked_of};

    /// No file yet. It takes no memory.
    pub fn new(alloc: Global) -> QuietFiles
        ensures entries { quiet_entries_of result ≡ [] }
        ensures asked { quiet_asked_of result ≡ [] }
    {
        QuietFiles {
            stored: Stored::new(alloc),
        }
    }

    /// Puts one file more. Its name isn't there before. After `Memory` all is as before.
    #[tactic(auto, using(crate::proofs::StoredLemmas::puts_file))]
    pub fn put_file(&mut self, name: &[u8], bytes: &[u8]) -> Result<(), Memory>
        requires { file_of (quiet_entries_of self.old) name.now ≡ None }
        ensures ok { OnOk result
            (PutsFile (quiet_entries_of self.old) (quiet_entries_of self.new) name.now bytes.now) }
        ensures last { OnOk result
            (quiet_entries_of self.new ≡ quiet_entries_of self.old ++ entry name.now bytes.now ∷
            []) }
        ensures asked { quiet_asked_of self.new ≡ quiet_asked_of self.old }
        ensures err { OnErr result (self.new ≡ self.old) }
    {
        self.stored.put(name, bytes)
    }
}

impl Files for QuietFiles {
    ghost use Rattle.std.specs.Prelude.{Some};
    ghost use Rattle.byte_edge.specs.Fetched.{Asks};
    ghost use Rattle.byte_edge.specs.Quiet.{quiet_entries_of, quiet_asked_of, quiet_bytes_of, QuietAnswers};

    ghost holds = { λ files name bytes. quiet_bytes_of files name ≡ bytes };

    ghost asked = { λ files. Some (quiet_asked_of files) };

    ghost fault_count = { λ _. 0 };

    fn faults(&self) -> u64 {
        0
    }

    /// Gives the bytes of the name, none if it isn't there.
    fn fetch(&mut self, name: &[u8], room: usize, out: &mut Vec<u8>) -> Result<(), FetchFault>
        ensures answers { QuietAnswers self.old name.now room out.new.items result }
        ensures empty { OnErr result (out.new.items ≡ []) }
        ensures asks { Asks (Some (quiet_asked_of self.old)) (Some (quiet_asked_of self.new))
            name.now result }
        ensures entries { quiet_entries_of self.new ≡ quiet_entries_of self.old }
    {
        out.clear();
        self.stored.ask(name)?;
        let bytes = self.stored.find(name).unwrap_or(&[]);
        if bytes.len() > room {
            return Err(FetchFault::TooLong);
        }
        out.extend_from_slice(bytes)?;
        Ok(())
    }
}
