//! Files in memory, of which chosen calls fail.
ghost use Rattle.std.specs.Prelude.{◌≡◌, OnOk, OnErr};

use crate::calls::Calls;
use crate::files::{FetchFault, Files};
use crate::stored::Stored;
use plain_data::Memory;
use std::alloc::Global;

/// Files in memory. A name that isn't there fails, and so do chosen calls, but for those whose
/// bytes are more than the room: these are too long.
#[derive(Drop)]
pub struct ByteFiles {
    stored: Stored,
    calls: Calls,
}

impl ByteFiles {
    ghost use Rattle.std.specs.Prelude.{◌++◌, ◌∷◌, [], None, IfOk};
    ghost use Rattle.byte_edge.specs.Calls.{fresh};
    ghost use Rattle.byte_edge.specs.Stored.{entry, file_of, PutsFile};
    ghost use Rattle.byte_edge.specs.ByteFiles.{entries_of, asked_of, files_calls};

    /// No file yet. The calls with the numbers in `failing`, counted from 1, are to fail.
    pub fn new(alloc: Global, failing: &[u64]) -> Result<ByteFiles, Memory>
        ensures entries { IfOk result (λ files. entries_of files ≡ []) }
        ensures asked { IfOk result (λ files. asked_of files ≡ []) }
        ensures calls { IfOk result (λ files. files_calls files ≡ fresh failing.now) }
    {
        Ok(ByteFiles {
            stored: Stored::new(alloc),
            calls: Calls::new(alloc, failing)?,
        })
    }

    /// Puts one file more. Its name isn't there before. After `Memory` all is as before.
    #[tactic(auto, using(crate::proofs::StoredLemmas::puts_file))]
    pub fn put_file(&mut self, name: &[u8], bytes: &[u8]) -> Result<(), Memory>
        requires { file_of (entries_of self.old) name.now ≡ None }
        ensures ok { OnOk result
            (PutsFile (entries_of self.old) (entries_of self.new) name.now bytes.now) }
        ensures last { OnOk result
            (entries_of self.new ≡ entries_of self.old ++ entry name.now bytes.now ∷ []) }
        ensures asked { asked_of self.new ≡ asked_of self.old }
        ensures calls { files_calls self.new ≡ files_calls self.old }
        ensures err { OnErr result (self.new ≡ self.old) }
    {
        self.stored.put(name, bytes)
    }
}

impl Files for ByteFiles {
    ghost use Rattle.std.specs.Prelude.{[], Some, Err, ◌≢◌, ◌≤◌};
    ghost use Rattle.byte_edge.specs.Fetched.{Asks};
    ghost use Rattle.byte_edge.specs.Calls.{passed, failed};
    ghost use Rattle.byte_edge.specs.Stored.{file_of};
    ghost use Rattle.byte_edge.specs.ByteFiles.{entries_of, asked_of, files_calls, files_faults, Answers};

    ghost holds = { λ files name bytes. file_of (entries_of files) name ≡ Some bytes };

    ghost asked = { λ files. Some (asked_of files) };

    ghost fault_count = { files_faults };

    fn faults(&self) -> u64 {
        self.calls.faults()
    }

    /// Counts the call, and gives the bytes of the name as the files are asked to.
    fn fetch(&mut self, name: &[u8], room: usize, out: &mut Vec<u8>) -> Result<(), FetchFault>
        ensures answers { Answers self.old name.now room out.new.items result }
        ensures empty { OnErr result (out.new.items ≡ []) }
        ensures asks { Asks (Some (asked_of self.old)) (Some (asked_of self.new)) name.now result }
        ensures entries { entries_of self.new ≡ entries_of self.old }
        ensures failed { result ≡ Err FetchFault.Failed →
            files_calls self.new ≡ failed (files_calls self.old) }
        ensures later { files_faults self.old ≤ files_faults self.new }
        ensures passed { result ≢ Err FetchFault.Failed →
            files_calls self.new ≡ passed (files_calls self.old) }
    {
        out.clear();
        let fails = self.calls.begin();
        self.stored.ask(name)?;
        let Some(bytes) = self.stored.find(name) else {
            self.calls.fail();
            return Err(FetchFault::Failed);
        };
        if bytes.len() > room {
            return Err(FetchFault::TooLong);
        }
        if fails {
            self.calls.fail();
            return Err(FetchFault::Failed);
        }
        out.extend_from_slice(bytes)?;
        Ok(())
    }
}
