//! Where bytes come from.
ghost use Rattle.std.specs.Prelude.{◌≡◌, ◌≢◌, ℕ, ◌<◌, ◌≤◌, List, length, IfOk, IfErr, IfSome, vec_len};
ghost use Rattle.std.specs.declared.option.Option.{Option};
ghost use Rattle.std.specs.Io.KnownBytes.{ReadConsumes, Consumes, IsAtEnd};
ghost use Rattle.byte_edge.specs.Causes.{Rose, HasCause};
ghost use Rattle.byte_edge.specs.Reading.{StopsWithin};

use std::alloc::{AllocError, Global};
use thiserror::Error;

/// A read or a write failed.
#[derive(Clone, Copy, Debug, Error)]
#[error("a read or a write failed")]
pub struct Failed;

/// Where bytes come from.
pub trait Source {
    /// The bytes that are left, where the source tells them.
    ghost left: { Self → Option (List ℕ) };

    /// How many calls have failed, up to 18446744073709551615.
    ghost fault_count: { Self → ℕ };

    /// How many calls have failed, up to the last value. The count never falls.
    fn faults(&self) -> u64
        ensures { result ≡ fault_count self.now };

    /// Reads from the front into the slice, and gives the count of bytes: 0 only at the end of the
    /// input, or where the slice is empty. After `Failed` no byte that the source tells is lost.
    fn read(&mut self, into: &mut [u8]) -> Result<usize, Failed>
        ensures bound { IfOk result (λ n. n ≤ length into.new) }
        ensures bytes { ReadConsumes (left self.old) (left self.new) result into.new }
        ensures cause { HasCause (fault_count self.old) (fault_count self.new) result };
}

/// Why a source was not read to its end.
#[derive(Clone, Copy, Debug, Error)]
pub enum ReadAll {
    /// A read failed.
    #[error("a read failed")]
    Fault,
    /// There are more bytes than the limit.
    #[error("the input is too long")]
    TooLong,
    /// Memory ran out.
    #[error("out of memory")]
    Memory,
}

impl From<AllocError> for ReadAll {
    ghost use Rattle.std.specs.Prelude.{◌≡◌};
    ghost use Rattle.byte_edge.specs.declared.source.ReadAll.TheVariants as read_all;

    ghost from_gives = { λ _ e. e ≡ read_all.Memory };

    fn from(_e: AllocError) -> ReadAll {
        ReadAll::Memory
    }
}

/// How many bytes are asked for at a time.
const CHUNK: usize = 4096;

/// All bytes of the source, up to its end, if they are at most `limit`. `TooLong` comes exactly
/// where more than `limit` bytes were taken.
pub fn read_all<S: Source>(alloc: Global, source: &mut S, limit: usize) -> Result<Vec<u8>, ReadAll>
    ensures all { IfOk result (λ bytes.
        Consumes (S.left source.old) (S.left source.new) bytes.items ×
        IsAtEnd (S.left source.new)) }
    ensures within { IfOk result (λ bytes. vec_len bytes ≤ limit) }

    // What a refused call has taken, and that there was too much.
    ensures stops { IfErr result (StopsWithin (S.left source.old) (S.left source.new) limit) }
    ensures too_long { result ≡ Err ReadAll.TooLong →
        IfSome (S.left source.old) (λ bytes. limit < length bytes) }

    // Faults are counted.
    ensures later { S.fault_count source.old ≤ S.fault_count source.new }
    ensures fault { result ≡ Err ReadAll.Fault →
        Rose (S.fault_count source.old) (S.fault_count source.new) }
    ensures no_fault { result ≢ Err ReadAll.Fault →
        S.fault_count source.new ≡ S.fault_count source.old }
{
    let mut bytes = Vec::new(alloc);
    let mut chunk = [0u8; CHUNK];
    loop {
        let Ok(count) = source.read(&mut chunk) else {
            return Err(ReadAll::Fault);
        };
        if count == 0 {
            return Ok(bytes);
        }
        if count > limit - bytes.len() {
            return Err(ReadAll::TooLong);
        }
        bytes.extend_from_slice(&chunk[..count])?;
    }
}
