//! The system's files.
ghost use Rattle.std.specs.Prelude.{◌≡◌, ◌≤◌, OnOk, vec_len};
ghost use Rattle.byte_edge.specs.machine.Steps.{AppendsRest};

use crate::files::{FetchFault, Files};
use crate::source::Failed;
use crate::streams::read_some;
use std::fs::File;
use std::io::Read;
use std::{rt, str};

/// How many bytes are asked for at a time.
const CHUNK: usize = 4096;

/// Files by their paths, from the runtime's file system. They tell no bytes and no names, and each
/// error that is answered as `Failed` is counted, a path that isn't UTF-8 among them.
#[derive(Drop)]
pub struct DiskFiles<R> {
    runtime: R,
    faults: u64,
}

impl<R> DiskFiles<R> {
    ghost use Rattle.byte_edge.specs.Adapters.{disk_faults};

    /// The files of this runtime, of which none has failed yet.
    pub fn new(runtime: R) -> DiskFiles<R>
        ensures { disk_faults result ≡ 0 }
    {
        DiskFiles { runtime, faults: 0 }
    }
}

impl From<Failed> for FetchFault {
    ghost use Rattle.byte_edge.specs.declared.files.FetchFault.TheVariants as fault;

    ghost from_gives = { λ _ e. e ≡ fault.Failed };

    fn from(_e: Failed) -> FetchFault {
        FetchFault::Failed
    }
}

/// Appends what the reader has left to `out`, which ends with at most `room` bytes. It asks for one
/// byte more than that at most.
fn append_rest<F: Read>(file: &mut F, room: usize, out: &mut Vec<u8>) -> Result<(), FetchFault>
    requires { vec_len out.old ≤ room }
    ensures within { OnOk result (vec_len out.new ≤ room) }
    ensures all { OnOk result
        (AppendsRest (F.remaining file.old) (F.remaining file.new) out.old.items out.new.items) }
{
    let mut chunk = [0u8; CHUNK];
    loop {
        let left = room - out.len();
        let asked = left.saturating_add(1).min(CHUNK);
        let count = read_some(file, &mut chunk[..asked])?;
        if count == 0 {
            return Ok(());
        }
        if count > left {
            return Err(FetchFault::TooLong);
        }
        out.extend_from_slice(&chunk[..count])?;
    }
}

/// Opens the file of this path, and appends its bytes to `out`.
fn load<R: rt::Files>(
    runtime: &R,
    path: &[u8],
    room: usize,
    out: &mut Vec<u8>,
) -> Result<(), FetchFault>
    requires { vec_len out.old ≤ room }
    ensures { OnOk result (vec_len out.new ≤ room) }
{
    let Ok(path) = str::from_utf8(path) else {
        return Err(FetchFault::Failed);
    };
    let Ok(mut file) = File::open(runtime, path) else {
        return Err(FetchFault::Failed);
    };
    append_rest(&mut file, room, out)
}

impl<R: rt::Files> Files for DiskFiles<R> {
    ghost use Rattle.std.specs.Prelude.{◌≢◌, [], None, Err, OnErr};
    ghost use Rattle.byte_edge.specs.Causes.{one_more};
    ghost use Rattle.byte_edge.specs.Adapters.{disk_faults};

    ghost holds = { λ _ _ _. ⊥ };

    ghost asked = { λ _. None };

    ghost fault_count = { disk_faults };

    fn faults(&self) -> u64 {
        self.faults
    }

    /// Gives the bytes of the file at the path. Each `Failed` is counted.
    fn fetch(&mut self, name: &[u8], room: usize, out: &mut Vec<u8>) -> Result<(), FetchFault>
        ensures within { OnOk result (vec_len out.new ≤ room) }
        ensures empty { OnErr result (out.new.items ≡ []) }
        ensures later { disk_faults self.old ≤ disk_faults self.new }
        ensures fault { result ≡ Err FetchFault.Failed →
            disk_faults self.new ≡ one_more (disk_faults self.old) }
        ensures no_fault { result ≢ Err FetchFault.Failed →
            disk_faults self.new ≡ disk_faults self.old }
    {
        out.clear();
        let loaded = load(&self.runtime, name, room, out);
        if loaded.is_err() {
            out.clear();
        }
        if loaded == Err(FetchFault::Failed) {
            self.faults = self.faults.saturating_add(1);
        }
        loaded
    }
}
