//! A source and a sink that never fail.
ghost use Rattle.std.specs.Prelude.{◌≡◌, ◌+◌, ◌-◌, ◌^◌, min, IfOk};

use crate::held::Held;
use crate::sink::Sink;
use crate::source::{Failed, Source};
use plain_data::Memory;
use std::alloc::Global;

/// A source over bytes in memory. No read fails.
#[derive(Drop)]
pub struct QuietSource {
    held: Held,
}

impl QuietSource {
    ghost use Rattle.byte_edge.specs.Quiet.{quiet_left_of};

    /// A source of these bytes.
    pub fn new(alloc: Global, bytes: &[u8]) -> Result<QuietSource, Memory>
        ensures { IfOk result (λ source. quiet_left_of source ≡ bytes.now) }
    {
        Ok(QuietSource {
            held: Held::new(alloc, bytes)?,
        })
    }
}

impl Source for QuietSource {
    ghost use Rattle.std.specs.Prelude.{Some, Ok, length};
    ghost use Rattle.std.specs.Io.KnownBytes.{ReadConsumes};
    ghost use Rattle.byte_edge.specs.Quiet.{quiet_left_of};

    ghost left = { λ source. Some (quiet_left_of source) };

    ghost fault_count = { λ _. 0 };

    fn faults(&self) -> u64 {
        0
    }

    /// Gives all that the slice has room for.
    fn read(&mut self, into: &mut [u8]) -> Result<usize, Failed>
        ensures count { result ≡ Ok (min (length into.new) (length (quiet_left_of self.old))) }
        ensures bytes { ReadConsumes (Some (quiet_left_of self.old)) (Some (quiet_left_of self.new))
            result into.new }
    {
        Ok(self.held.take_into(into))
    }
}

/// A sink that takes all, and keeps no more than the count of the bytes. No write fails.
#[derive(Drop)]
pub struct QuietSink {
    count: u64,
}

impl QuietSink {
    ghost use Rattle.byte_edge.specs.Quiet.{quiet_count_of};

    /// A sink that took nothing yet.
    pub fn new() -> QuietSink
        ensures { quiet_count_of result ≡ 0 }
    {
        QuietSink { count: 0 }
    }

    /// How many bytes it took, up to the last value.
    pub fn count(&self) -> u64
        ensures { result ≡ quiet_count_of self.now }
    {
        self.count
    }
}

impl Sink for QuietSink {
    ghost use Rattle.std.specs.Prelude.{None, Ok, length};
    ghost use Rattle.byte_edge.specs.Quiet.{quiet_count_of};

    ghost taken = { λ _. None };

    ghost fault_count = { λ _. 0 };

    fn faults(&self) -> u64 {
        0
    }

    /// Takes all the bytes.
    fn write(&mut self, from: &[u8]) -> Result<usize, Failed>
        ensures all { result ≡ Ok (length from.now) }
        ensures counted { quiet_count_of self.new ≡
            min (quiet_count_of self.old + length from.now) (2 ^ 64 - 1) }
    {
        self.count = self.count.saturating_add(from.len() as u64);
        Ok(from.len())
    }
}
