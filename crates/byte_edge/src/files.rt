//! Where files come from.
ghost use Rattle.std.specs.Prelude.{◌≡◌, ◌≢◌, ℕ, ◌≤◌, ◌↔◌, List, [], OnErr, OnOk, vec_len};
ghost use Rattle.std.specs.declared.option.Option.{Option};
ghost use Rattle.byte_edge.specs.Fetched.{Asks, Fetches};
ghost use Rattle.byte_edge.specs.Causes.{Rose};

use plain_data::Memory;
use std::alloc::AllocError;
use thiserror::Error;

/// Why a file was not given.
#[derive(Clone, Copy, Debug, PartialEq, Eq, Error)]
pub enum FetchFault {
    /// The file is not there, or reading it failed.
    #[error("the file could not be read")]
    Failed,
    /// The file has more bytes than there is room for.
    #[error("the file is too long")]
    TooLong,
    /// Memory ran out.
    #[error("out of memory")]
    Memory,
}

impl From<AllocError> for FetchFault {
    ghost use Rattle.std.specs.Prelude.{◌≡◌};
    ghost use Rattle.byte_edge.specs.declared.files.FetchFault.TheVariants as fault;

    ghost from_gives = { λ _ e. e ≡ fault.Memory };

    fn from(_e: AllocError) -> FetchFault {
        FetchFault::Memory
    }
}

impl From<Memory> for FetchFault {
    ghost use Rattle.std.specs.Prelude.{◌≡◌};
    ghost use Rattle.byte_edge.specs.declared.files.FetchFault.TheVariants as fault;

    ghost from_gives = { λ _ e. e ≡ fault.Memory };

    fn from(_e: Memory) -> FetchFault {
        FetchFault::Memory
    }
}

/// Where files come from.
pub trait Files {
    /// A name holds these bytes, where the object tells it.
    ghost holds: { Self → List ℕ → List ℕ → Type 0 };

    /// The names asked for so far, in order, where they are told.
    ghost asked: { Self → Option (List (List ℕ)) };

    /// How many calls have failed, up to 18446744073709551615.
    ghost fault_count: { Self → ℕ };

    /// How many calls have failed, up to the last value. The count never falls.
    fn faults(&self) -> u64
        ensures { result ≡ fault_count self.now };

    /// Replaces `out` by the bytes of the name, if they are at most `room`, and puts the name at
    /// the end of the names asked for. `TooLong` comes exactly where the bytes are more than
    /// `room`. After any refusal `out` is empty.
    fn fetch(&mut self, name: &[u8], room: usize, out: &mut Vec<u8>) -> Result<(), FetchFault>
        ensures fetches { Fetches (holds self.old name.now) room out.new.items result }
        ensures within { OnOk result (vec_len out.new ≤ room) }
        ensures empty { OnErr result (out.new.items ≡ []) }

        // The name was asked for, and the files stay as they are.
        ensures asks { Asks (asked self.old) (asked self.new) name.now result }
        ensures same { (n bytes : List ℕ) → holds self.new n bytes ↔ holds self.old n bytes }

        // Faults are counted.
        ensures later { fault_count self.old ≤ fault_count self.new }
        ensures fault { result ≡ Err FetchFault.Failed →
            Rose (fault_count self.old) (fault_count self.new) }
        ensures no_fault { result ≢ Err FetchFault.Failed →
            fault_count self.new ≡ fault_count self.old };
}
