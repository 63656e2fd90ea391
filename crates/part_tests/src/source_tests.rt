//! Files that fail, and one that is too long.
use byte_edge::{ByteFiles, Files};
use md_source::{SourceRefusal, gather};
use plain_data::Memory;
use std::alloc::Global;

/// Two files, of which one includes the other, where a call is to fail.
fn two_files(alloc: Global, failing: u64) -> Result<ByteFiles, Memory> {
    let mut files = ByteFiles::new(alloc, &[failing])?;
    files.put_file(b"a", b"(x) (include \"b\") (z)")?;
    files.put_file(b"b", b"(y)")?;
    Ok(files)
}

/// Whether the fault of a call is told, and counted once.
fn is_fault(alloc: Global, failing: u64) -> bool {
    let Ok(mut files) = two_files(alloc, failing) else {
        return false;
    };
    let gathered = gather(alloc, &mut files, b"a");
    matches!(gathered, Err(SourceRefusal::ReadFault)) && files.faults() == 1
}

/// Whether three trees come without a fault.
fn is_whole(alloc: Global, failing: u64) -> bool {
    let Ok(mut files) = two_files(alloc, failing) else {
        return false;
    };
    match gather(alloc, &mut files, b"a") {
        Ok(trees) => trees.len() == 3 && files.faults() == 0,
        Err(_) => false,
    }
}

#[test]
fn files_that_fail(rt: HostRuntime) {
    assert!(rt; is_whole(rt.alloc(), 3));
    assert!(rt; is_fault(rt.alloc(), 1));
    assert!(rt; is_fault(rt.alloc(), 2));
}

/// A file of one byte more than a description may have, and one that includes it.
fn long_files(alloc: Global) -> Result<ByteFiles, Memory> {
    let text = vec![in alloc; b' '; 16_777_217]?;
    let mut files = ByteFiles::new(alloc, &[])?;
    files.put_file(b"to_long", b"(a) (include \"long\")")?;
    files.put_file(b"long", text.as_slice())?;
    Ok(files)
}

/// A file of one byte more than a description may have, alone and behind another.
#[test]
fn files_that_are_too_long(rt: HostRuntime) {
    let alloc = rt.alloc();
    let Ok(mut files) = long_files(alloc) else {
        panic!(rt; "no files");
    };
    assert!(rt; matches!(gather(alloc, &mut files, b"long"), Err(SourceRefusal::Text)));
    assert!(rt;
        matches!(
            gather(alloc, &mut files, b"to_long"),
            Err(SourceRefusal::Text)
        )
    );
}
