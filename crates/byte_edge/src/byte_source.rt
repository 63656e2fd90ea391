//! A source in memory.
ghost use Rattle.std.specs.Prelude.{◌≡◌, IfOk};

use crate::calls::Calls;
use crate::held::Held;
use crate::source::{Failed, Source};
use plain_data::Memory;
use std::alloc::Global;

/// A source over bytes in memory. Chosen calls fail, and take nothing.
#[derive(Drop)]
pub struct ByteSource {
    held: Held,
    calls: Calls,
}

impl ByteSource {
    ghost use Rattle.byte_edge.specs.Calls.{fresh};
    ghost use Rattle.byte_edge.specs.InMemory.{left_of, source_calls};

    /// A source of these bytes. The calls with the numbers in `failing`, counted from 1, are to
    /// fail.
    pub fn new(alloc: Global, bytes: &[u8], failing: &[u64]) -> Result<ByteSource, Memory>
        ensures bytes { IfOk result (λ source. left_of source ≡ bytes.now) }
        ensures calls { IfOk result (λ source. source_calls source ≡ fresh failing.now) }
    {
        Ok(ByteSource {
            held: Held::new(alloc, bytes)?,
            calls: Calls::new(alloc, failing)?,
        })
    }
}

impl Source for ByteSource {
    ghost use Rattle.std.specs.Prelude.{Some, ◌≤◌, ◌↔◌, length, min, IsErr, is_ok, if◌then◌else◌};
    ghost use Rattle.std.specs.Io.KnownBytes.{ReadConsumes};
    ghost use Rattle.byte_edge.specs.Causes.{HasCause};
    ghost use Rattle.byte_edge.specs.Calls.{IsToFail, passed, failed};
    ghost use Rattle.byte_edge.specs.InMemory.{left_of, source_calls, source_faults};

    ghost left = { λ source. Some (left_of source) };

    ghost fault_count = { source_faults };

    fn faults(&self) -> u64 {
        self.calls.faults()
    }

    /// Gives all that the slice has room for, unless the call is to fail.
    fn read(&mut self, into: &mut [u8]) -> Result<usize, Failed>
        ensures bound { IfOk result (λ n. n ≤ length into.new) }
        ensures bytes { ReadConsumes (Some (left_of self.old)) (Some (left_of self.new))
            result into.new }
        ensures cause { HasCause (source_faults self.old) (source_faults self.new) result }

        // Exactly the chosen calls fail, and any other gives all that it can.
        ensures fails { IsErr result ↔ IsToFail (source_calls self.old) }
        ensures full { IfOk result (λ n. n ≡ min (length into.new) (length (left_of self.old))) }
        ensures counted { source_calls self.new ≡
            (if is_ok result then passed (source_calls self.old) else failed
            (source_calls self.old)) }
    {
        if self.calls.begin() {
            self.calls.fail();
            return Err(Failed);
        }
        Ok(self.held.take_into(into))
    }
}
