//! A sink in memory.
ghost use Rattle.std.specs.Prelude.{◌<◌, ◌≤◌, vec_len, vec_capacity};

use crate::calls::Calls;
use crate::sink::Sink;
use crate::source::Failed;
use plain_data::Memory;
use std::alloc::Global;

/// A sink that keeps the bytes it took: `most` at a time, and no more than `room` in all. Chosen
/// calls fail, and take nothing.
#[derive(Drop)]
pub struct ByteSink {
    taken: Vec<u8>,
    room: usize,
    most: usize,
    calls: Calls,
    ghost some: { 0 < most },
    ghost held: { vec_len taken ≤ room },
    ghost fits: { room ≤ vec_capacity taken },
}

impl ByteSink {
    ghost use Rattle.std.specs.Prelude.{◌≡◌, [], IfOk};
    ghost use Rattle.byte_edge.specs.Calls.{fresh};
    ghost use Rattle.byte_edge.specs.InMemory.{taken_of, room_of, most_of, sink_calls};

    /// A sink with room for `room` bytes, which takes at most `most` a call. The calls with the
    /// numbers in `failing`, counted from 1, are to fail.
    pub fn new(alloc: Global, room: usize, most: usize, failing: &[u64]) -> Result<ByteSink, Memory>
        requires { 0 < most }
        ensures taken { IfOk result (λ sink. taken_of sink ≡ []) }
        ensures room { IfOk result (λ sink. room_of sink ≡ room) }
        ensures most { IfOk result (λ sink. most_of sink ≡ most) }
        ensures calls { IfOk result (λ sink. sink_calls sink ≡ fresh failing.now) }
    {
        Ok(ByteSink {
            taken: Vec::with_capacity(alloc, room)?,
            room,
            most,
            calls: Calls::new(alloc, failing)?,
        })
    }

    /// The bytes that it took.
    pub fn taken(&self) -> &[u8]
        ensures { result.now ≡ taken_of self.now }
    {
        self.taken.as_slice()
    }
}

impl Sink for ByteSink {
    ghost use Rattle.std.specs.Prelude.{◌≡◌, ◌+◌, ◌⊎◌, ◌↔◌, Some, length, min, IfOk, IsErr, is_ok, if◌then◌else◌};
    ghost use Rattle.std.specs.Io.KnownBytes.{WriteAppends};
    ghost use Rattle.byte_edge.specs.Causes.{HasCause};
    ghost use Rattle.byte_edge.specs.Calls.{IsToFail, passed, failed};
    ghost use Rattle.byte_edge.specs.InMemory.{taken_of, room_of, most_of, sink_calls, sink_faults};

    ghost taken = { λ sink. Some (taken_of sink) };

    ghost fault_count = { sink_faults };

    fn faults(&self) -> u64 {
        self.calls.faults()
    }

    /// Takes as many bytes as it takes at a time, unless the call is to fail or there is no room
    /// for them all.
    fn write(&mut self, from: &[u8]) -> Result<usize, Failed>
        ensures bound { IfOk result (λ n. n ≤ length from.now) }
        ensures some { IfOk result (λ n. 0 < length from.now → 0 < n) }
        ensures bytes { WriteAppends (Some (taken_of self.old)) (Some (taken_of self.new))
            result from.now }
        ensures cause { HasCause (sink_faults self.old) (sink_faults self.new) result }

        // Exactly the chosen calls and those without room fail, and any other takes all that it
        // can.
        ensures fails { IsErr result ↔ (IsToFail (sink_calls self.old) ⊎
            (room_of self.old < length (taken_of self.old) + min (length from.now)
            (most_of self.old))) }
        ensures full { IfOk result (λ n. n ≡ min (length from.now) (most_of self.old)) }
        ensures counted { sink_calls self.new ≡
            (if is_ok result then passed (sink_calls self.old) else failed (sink_calls self.old)) }
        ensures room { room_of self.new ≡ room_of self.old }
        ensures most { most_of self.new ≡ most_of self.old }
    {
        let fails = self.calls.begin();
        let count = from.len().min(self.most);
        let fits = count <= self.room - self.taken.len();
        if fails || !fits || self.taken.extend_from_slice(&from[..count]).is_err() {
            self.calls.fail();
            return Err(Failed);
        }
        Ok(count)
    }
}
