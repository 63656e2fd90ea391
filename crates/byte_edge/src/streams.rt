//! std's readers and writers as a source and a sink.
ghost use Rattle.std.specs.Prelude.{◌≡◌, ◌<◌, ◌≤◌, length, IfOk};
ghost use Rattle.std.specs.Io.KnownBytes.{ReadConsumes, WriteAppends};

use crate::sink::Sink;
use crate::source::{Failed, Source};
use std::io::{ErrorKind, Read, Write};

/// Reads once, trying again where a signal interrupted it.
pub fn read_some<R: Read>(reader: &mut R, into: &mut [u8]) -> Result<usize, Failed>
    ensures bound { IfOk result (λ n. n ≤ length into.new) }
    ensures bytes { ReadConsumes (R.remaining reader.old) (R.remaining reader.new) result into.new }
{
    'tries: for _ in 0..u64::MAX {
        match reader.read(into) {
            Ok(count) => return Ok(count),
            Err(error) if error.kind() == ErrorKind::Interrupted => {}
            Err(_) => return Err(Failed),
        }
    }
    Err(Failed)
}

/// Writes once, trying again where a signal interrupted it. Taking nothing is a failure.
fn write_some<W: Write>(writer: &mut W, from: &[u8]) -> Result<usize, Failed>
    ensures bound { IfOk result (λ n. n ≤ length from.now) }
    ensures some { IfOk result (λ n. 0 < n) }
    ensures bytes { WriteAppends (W.contents writer.old) (W.contents writer.new) result from.now }
{
    'tries: for _ in 0..u64::MAX {
        match writer.write(from) {
            Ok(0) => return Err(Failed),
            Ok(count) => return Ok(count),
            Err(error) if error.kind() == ErrorKind::Interrupted => {}
            Err(_) => return Err(Failed),
        }
    }
    Err(Failed)
}

/// A source over a reader of std. It tells no bytes, and counts each error that it answers.
#[derive(Drop)]
pub struct StdSource<R> {
    reader: R,
    faults: u64,
}

impl<R> StdSource<R> {
    ghost use Rattle.byte_edge.specs.Adapters.{std_reader, std_source_faults};

    /// A source over this reader, which has not failed yet.
    pub fn new(reader: R) -> StdSource<R>
        ensures reader { std_reader result ≡ reader }
        ensures faults { std_source_faults result ≡ 0 }
    {
        StdSource { reader, faults: 0 }
    }
}

impl<R: Read> Source for StdSource<R> {
    ghost use Rattle.std.specs.Prelude.{None, is_ok, if◌then◌else◌};
    ghost use Rattle.byte_edge.specs.Causes.{HasCause, one_more};
    ghost use Rattle.byte_edge.specs.Adapters.{std_reader, std_source_faults};

    ghost left = { λ _. None };

    ghost fault_count = { std_source_faults };

    fn faults(&self) -> u64 {
        self.faults
    }

    /// Reads once, and passes on what the reader gives. Each `Failed` is counted.
    fn read(&mut self, into: &mut [u8]) -> Result<usize, Failed>
        ensures bound { IfOk result (λ n. n ≤ length into.new) }
        ensures bytes { ReadConsumes (R.remaining (std_reader self.old))
            (R.remaining (std_reader self.new))
            result into.new }
        ensures cause { HasCause (std_source_faults self.old) (std_source_faults self.new) result }
        ensures counted { std_source_faults self.new ≡
            (if is_ok result then std_source_faults self.old else one_more
            (std_source_faults self.old)) }
    {
        let read = read_some(&mut self.reader, into);
        if read.is_err() {
            self.faults = self.faults.saturating_add(1);
        }
        read
    }
}

/// A sink over a writer of std. It tells no bytes, and counts each error that it answers, and each
/// write that takes nothing.
#[derive(Drop)]
pub struct StdSink<W> {
    writer: W,
    faults: u64,
}

impl<W> StdSink<W> {
    ghost use Rattle.byte_edge.specs.Adapters.{std_writer, std_sink_faults};

    /// A sink over this writer, which has not failed yet.
    pub fn new(writer: W) -> StdSink<W>
        ensures writer { std_writer result ≡ writer }
        ensures faults { std_sink_faults result ≡ 0 }
    {
        StdSink { writer, faults: 0 }
    }
}

impl<W: Write> Sink for StdSink<W> {
    ghost use Rattle.std.specs.Prelude.{None, is_ok, if◌then◌else◌};
    ghost use Rattle.byte_edge.specs.Causes.{HasCause, one_more};
    ghost use Rattle.byte_edge.specs.Adapters.{std_writer, std_sink_faults};

    ghost taken = { λ _. None };

    ghost fault_count = { std_sink_faults };

    fn faults(&self) -> u64 {
        self.faults
    }

    /// Writes once, and passes on all that the writer takes. Each `Failed` is counted, and a write
    /// that takes nothing is one.
    fn write(&mut self, from: &[u8]) -> Result<usize, Failed>
        ensures bound { IfOk result (λ n. n ≤ length from.now) }
        ensures some { IfOk result (λ n. 0 < length from.now → 0 < n) }
        ensures bytes { WriteAppends (W.contents (std_writer self.old))
            (W.contents (std_writer self.new))
            result from.now }
        ensures cause { HasCause (std_sink_faults self.old) (std_sink_faults self.new) result }
        ensures counted { std_sink_faults self.new ≡
            (if is_ok result then std_sink_faults self.old else one_more
            (std_sink_faults self.old)) }
    {
        if from.is_empty() {
            return Ok(0);
        }
        let written = write_some(&mut self.writer, from);
        if written.is_err() {
            self.faults = self.faults.saturating_add(1);
        }
        written
    }
}
