use byte_edge::{
    ByteFiles, ByteSink, ByteSource, DiskFiles, Failed, FetchFault, Files, QuietFiles, QuietSink,
    QuietSource, ReadAll, Sink, Source, StdSink, StdSource, read_all, write_all_of,
};
use case_text::Told;
use plain_data::Memory;
use std::alloc::Global;
use std::io::{ErrorKind, Read, Write};
use std::{fs, io};

const TEXT: &[u8] = b"(set (reg:DI a0) (const_int 0))";

/// A source of the text of which a call is to fail.
fn source_of(alloc: Global, failing: u64) -> Result<ByteSource, Memory> {
    ByteSource::new(alloc, TEXT, &[failing])
}

/// Whether a source gives the text with so much room, and without a fault.
fn gives_the_text<S: Source>(alloc: Global, source: &mut S, limit: usize) -> bool {
    match read_all(alloc, source, limit) {
        Ok(bytes) => bytes.as_slice() == TEXT && source.faults() == 0,
        Err(_) => false,
    }
}

/// Whether all is read with so much room where a call is to fail, and without a fault.
fn is_read(alloc: Global, limit: usize, failing: u64) -> bool {
    match source_of(alloc, failing) {
        Ok(mut source) => gives_the_text(alloc, &mut source, limit),
        Err(_) => false,
    }
}

/// The number of a refusal, in the order of its cases.
fn number_of(refusal: ReadAll) -> u32 {
    match refusal {
        ReadAll::Fault => 0,
        ReadAll::TooLong => 1,
        ReadAll::Memory => 2,
    }
}

/// The number of the refusal of what a source gives with so much room, if it is refused.
fn refusal_of<S: Source>(alloc: Global, source: &mut S, limit: usize) -> Option<u32> {
    match read_all(alloc, source, limit) {
        Ok(_) => None,
        Err(refusal) => Some(number_of(refusal)),
    }
}

/// Whether the refusal of this number comes with so much room where a call is to fail, and with so
/// many faults.
fn is_refused(alloc: Global, limit: usize, failing: u64, want: u32, faults: u64) -> bool {
    match source_of(alloc, failing) {
        Ok(mut source) => {
            refusal_of(alloc, &mut source, limit) == Some(want) && source.faults() == faults
        }
        Err(_) => false,
    }
}

/// Whether the text is too long for 30 bytes where a call is to fail, and without a fault.
fn is_too_long(alloc: Global, failing: u64) -> bool {
    is_refused(alloc, 30, failing, number_of(ReadAll::TooLong), 0)
}

/// Whether the fault of a call is told, and counted once.
fn is_fault(alloc: Global, failing: u64) -> bool {
    is_refused(alloc, 31, failing, number_of(ReadAll::Fault), 1)
}

/// 31 bytes come in the first read, and the second one finds the end.
#[test]
fn reads_to_the_end(rt: HostRuntime) {
    assert!(rt; is_read(rt.alloc(), 31, 3));
    assert!(rt; is_too_long(rt.alloc(), 3));
    assert!(rt; is_fault(rt.alloc(), 1));
    assert!(rt; is_fault(rt.alloc(), 2));
    assert!(rt; is_too_long(rt.alloc(), 2));
}

/// Whether so many of 100 bytes are taken by a sink with so much room and so many bytes at a time,
/// of which a call is to fail, and there is a fault where not all are.
fn is_taken(alloc: Global, room: usize, most: usize, failing: u64, want: usize) -> bool {
    if most == 0 {
        return false;
    }
    let Ok(mut sink) = ByteSink::new(alloc, room, most, &[failing]) else {
        return false;
    };
    let is_written = write_all_of(&mut sink, &[b'x'; 100]).is_ok();
    let is_all = want == 100;
    sink.taken().len() == want && is_written == is_all && sink.faults() == u64::from(!is_all)
}

#[test]
fn writes_all_or_a_front(rt: HostRuntime) {
    assert!(rt; is_taken(rt.alloc(), 1000, 16, 9, 100));
    assert!(rt; is_taken(rt.alloc(), 1000, 16, 3, 32));
    assert!(rt; is_taken(rt.alloc(), 1000, 1000, 1, 0));
    assert!(rt; is_taken(rt.alloc(), 100, 16, 8, 100));
    assert!(rt; is_taken(rt.alloc(), 99, 16, 9, 96));
    assert!(rt; is_taken(rt.alloc(), 0, 1, 9, 0));
}

/// Appends what is got when a file is asked for, with so much room.
fn fetch<F: Files>(files: &mut F, name: &[u8], room: usize, out: &mut Vec<u8>, told: &mut Told) {
    told.text(match files.fetch(name, room, out) {
        Ok(()) => "+",
        Err(FetchFault::TooLong) => ">",
        Err(FetchFault::Failed) => "!",
        Err(FetchFault::Memory) => "memory",
    });
    told.push(out.as_slice());
}

/// What is got when files are asked for, with so much room each.
fn fetched<F: Files>(alloc: Global, files: &mut F, asked: &[(&[u8], usize)]) -> Told {
    let mut told = Told::new(alloc);
    let mut out = Vec::new(alloc);
    for (name, room) in asked {
        fetch(files, name, *room, &mut out, &mut told);
    }
    told
}

/// Whether this is got when files are asked for, with so much room each.
fn is_got<F: Files>(alloc: Global, files: &mut F, asked: &[(&[u8], usize)], want: &[u8]) -> bool {
    let told = fetched(alloc, files, asked);
    told.out.as_slice() == want
}

/// A file of ten bytes and an empty one. Of the calls two are to fail.
fn ten_and_nothing(alloc: Global) -> Result<ByteFiles, Memory> {
    let mut files = ByteFiles::new(alloc, &[2, 3])?;
    files.put_file(b"a", b"0123456789")?;
    files.put_file(b"b", b"")?;
    Ok(files)
}

/// Whether files of ten bytes and of nothing are got, but where a call is to fail.
fn are_ten_and_nothing_got(alloc: Global, files: &mut ByteFiles) -> bool {
    // Of these the second call is one that is to fail, and its file is too long.
    let asked: [(&[u8], usize); 6] = [
        (b"a", 10),
        (b"a", 9),
        (b"a", 10),
        (b"c", 10),
        (b"a", 11),
        (b"b", 0),
    ];
    is_got(alloc, files, &asked, b"+0123456789>!!+0123456789+")
}

#[test]
fn gives_the_files_asked_for(rt: HostRuntime) {
    let Ok(mut files) = ten_and_nothing(rt.alloc()) else {
        panic!(rt; "out of memory");
    };
    assert!(rt; are_ten_and_nothing_got(rt.alloc(), &mut files));
    assert!(rt; files.faults() == 2);
}

/// Whether a file of ten bytes is got, and nothing where there is no file.
fn is_nothing_got(alloc: Global, files: &mut QuietFiles) -> bool {
    let asked: [(&[u8], usize); 4] = [(b"a", 10), (b"c", 10), (b"a", 9), (b"c", 0)];
    is_got(alloc, files, &asked, b"+0123456789+>+")
}

#[test]
fn finds_nothing_quietly(rt: HostRuntime) {
    let mut files = QuietFiles::new(rt.alloc());
    assert!(rt; files.put_file(b"a", b"0123456789").is_ok());
    assert!(rt; is_nothing_got(rt.alloc(), &mut files));
    assert!(rt; files.faults() == 0);
}

/// Whether a file of ten bytes is written.
fn is_file_written(rt: &HostRuntime) -> bool {
    fs::write(rt, "byte_edge_ten", b"(symbol a)".as_slice()).is_ok()
}

/// Whether the file of ten bytes is removed.
fn is_file_removed(rt: &HostRuntime) -> bool {
    fs::remove_file(rt, "byte_edge_ten").is_ok()
}

/// Whether the file of ten bytes is got, but where it is too long, and no other.
fn is_file_got<F: Files>(alloc: Global, files: &mut F) -> bool {
    let asked: [(&[u8], usize); 5] = [
        (b"byte_edge_ten", 10),
        (b"byte_edge_ten", 9),
        (b"byte_edge_gone", 10),
        (b"byte_edge_\xff", 10),
        (b"byte_edge_ten", 11),
    ];
    is_got(alloc, files, &asked, b"+(symbol a)>!!+(symbol a)")
}

#[test]
fn reads_files_of_the_disk(rt: HostRuntime) {
    assert!(rt; is_file_written(&rt));
    let mut files = DiskFiles::new(&rt);
    assert!(rt; is_file_got(rt.alloc(), &mut files));
    assert!(rt; files.faults() == 2);
    assert!(rt; is_file_removed(&rt));
}

/// Whether a source gives the text quietly.
fn gives_quietly(alloc: Global) -> bool {
    match QuietSource::new(alloc, TEXT) {
        Ok(mut source) => gives_the_text(alloc, &mut source, 31),
        Err(_) => false,
    }
}

#[test]
fn passes_all_quietly(rt: HostRuntime) {
    let mut sink = QuietSink::new();
    assert!(rt; write_all_of(&mut sink, TEXT).is_ok());
    assert!(rt; write_all_of(&mut sink, b"\n").is_ok());
    assert!(rt; sink.count() == 32 && sink.faults() == 0);
    assert!(rt; gives_quietly(rt.alloc()));
}

/// A stream that is interrupted, then passes one byte, then breaks, and so on in turn.
#[derive(Drop)]
struct Broken {
    turn: usize,
}

impl Broken {
    fn next(&mut self) -> io::Result<usize> {
        self.turn = self.turn.wrapping_add(1) % 3;
        match self.turn {
            1 => Err(io::Error::from(ErrorKind::Interrupted)),
            2 => Ok(1),
            _ => Err(io::Error::from(ErrorKind::BrokenPipe)),
        }
    }
}

impl Read for Broken {
    fn read(&mut self, buf: &mut [u8]) -> io::Result<usize> {
        let count = self.next()?;
        Ok(count.min(buf.len()))
    }
}

impl Write for Broken {
    fn write(&mut self, buf: &[u8]) -> io::Result<usize> {
        let count = self.next()?;
        Ok(count.min(buf.len()))
    }

    fn flush(&mut self) -> io::Result<()> {
        Ok(())
    }
}

/// Whether a slice is read whole, without a fault.
fn is_slice_read(alloc: Global) -> bool {
    let mut source = StdSource::new(TEXT);
    gives_the_text(alloc, &mut source, 31)
}

/// Whether one byte is read.
fn is_byte_read<S: Source>(source: &mut S) -> bool {
    let mut into = [0; 8];
    matches!(source.read(&mut into), Ok(1))
}

/// Whether a read fails.
fn fails_to_read<S: Source>(source: &mut S) -> bool {
    let mut into = [0; 8];
    matches!(source.read(&mut into), Err(Failed))
}

#[test]
fn counts_the_faults_of_sources(rt: HostRuntime) {
    assert!(rt; is_slice_read(rt.alloc()));
    let mut source = StdSource::new(Broken { turn: 0 });
    assert!(rt; is_byte_read(&mut source));
    assert!(rt; fails_to_read(&mut source));
    assert!(rt; source.faults() == 1);
}

/// Whether a sink takes so many bytes of the text.
fn takes<S: Sink>(sink: &mut S, want: usize) -> bool {
    matches!(sink.write(TEXT), Ok(count) if count == want)
}

/// Whether a write fails.
fn fails_to_write<S: Sink>(sink: &mut S) -> bool {
    matches!(sink.write(TEXT), Err(Failed))
}

/// Whether a sink takes so many bytes of the text, and then fails once.
fn fails_behind<S: Sink>(sink: &mut S, count: usize) -> bool {
    takes(sink, count) && fails_to_write(sink) && sink.faults() == 1
}

#[test]
fn counts_the_faults_of_sinks(rt: HostRuntime) {
    let mut sink = StdSink::new(Broken { turn: 0 });
    assert!(rt; fails_behind(&mut sink, 1));
    // A slice takes no more than it has room for.
    let mut room = [0; 4];
    let mut sink = StdSink::new(room.as_mut_slice());
    assert!(rt; fails_behind(&mut sink, 4));
}
