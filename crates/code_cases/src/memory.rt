//! Accesses, writes and the visible part of memory.
use crate::parts::{numbers_in, width};
use case_text::Told;
use plain_data::{Items, Memory};
use rtx_tree::{MemByte, Memories, RangeAt};
use run_memory::{load, store, visible_part, write_all};
use std::alloc::Global;

fn low_byte(value: u64) -> u8 {
    (value & 0xff) as u8
}

/// Memory with bytes at rising addresses: each address is followed by its byte.
pub fn memory_of(alloc: Global, pairs: &[u64]) -> Result<Memories, Memory> {
    let mut memory = Memories::new(alloc);
    for pair in pairs.chunks(2) {
        let [address, byte] = pair else {
            break;
        };
        if memory.is_above(*address) {
            memory.push(MemByte {
                address: *address,
                byte: low_byte(*byte),
            })?;
        }
    }
    Ok(memory)
}

/// The memory whose addresses and bytes a text writes.
fn memory_in(alloc: Global, text: &[u8]) -> Option<Memories> {
    let Some(pairs) = numbers_in(alloc, text) else {
        return None;
    };
    memory_of(alloc, pairs.as_slice()).ok()
}

/// Appends each byte of memory behind its address.
pub fn show_memory(memory: &Memories, told: &mut Told) {
    for byte in memory.bytes() {
        told.gap();
        told.show(byte.address);
        told.text("=");
        told.show(byte.byte);
    }
}

/// Appends what is loaded from memory, by the width and the address.
fn show_load(memory: &Memories, words: &[u64], told: &mut Told) {
    match words {
        [bits, address] => told.debug(&load(memory, width(*bits), *address)),
        _ => told.fail(),
    }
}

/// Appends what is loaded from the memory that is given.
fn tell_load(alloc: Global, given: &[u8], input: &[u8], told: &mut Told) {
    if let Some(memory) = memory_in(alloc, given)
        && let Some(words) = numbers_in(alloc, input)
    {
        show_load(&memory, words.as_slice(), told);
    } else {
        told.fail();
    }
}

/// Appends whether a store is done, by the width, the address and the value, and what memory holds
/// then.
fn show_store(memory: &mut Memories, words: &[u64], told: &mut Told) {
    match words {
        [bits, address, value] => {
            let is_done = store(memory, width(*bits), *address, *value);
            told.text(if is_done { "done:" } else { "undone:" });
            show_memory(memory, told);
        }
        _ => told.fail(),
    }
}

/// Appends whether a store is done, and what the memory that is given holds then.
fn tell_store(alloc: Global, given: &[u8], input: &[u8], told: &mut Told) {
    if let Some(mut memory) = memory_in(alloc, given)
        && let Some(words) = numbers_in(alloc, input)
    {
        show_store(&mut memory, words.as_slice(), told);
    } else {
        told.fail();
    }
}

/// Bytes at addresses, each address followed by its byte.
fn writes_of(alloc: Global, pairs: &[u64]) -> Result<Items<MemByte>, Memory> {
    let mut writes = Items::new(alloc);
    for pair in pairs.chunks(2) {
        if let [address, byte] = pair {
            writes.push(MemByte {
                address: *address,
                byte: low_byte(*byte),
            })?;
        }
    }
    Ok(writes)
}

/// Appends what the memory that is given holds after writes.
fn tell_writes(alloc: Global, given: &[u8], input: &[u8], told: &mut Told) {
    if let Some(mut memory) = memory_in(alloc, given)
        && let Some(words) = numbers_in(alloc, input)
        && let Ok(writes) = writes_of(alloc, words.as_slice())
    {
        write_all(&mut memory, &writes);
        show_memory(&memory, told);
    } else {
        told.fail();
    }
}

/// Ranges, each an address followed by its length.
fn ranges_of(alloc: Global, pairs: &[u64]) -> Result<Items<RangeAt>, Memory> {
    let mut ranges = Items::new(alloc);
    for pair in pairs.chunks(2) {
        if let [address, length] = pair {
            ranges.push(RangeAt {
                address: *address,
                length: *length,
            })?;
        }
    }
    Ok(ranges)
}

/// Appends the visible part of the memory that is given.
fn tell_visible(alloc: Global, given: &[u8], input: &[u8], told: &mut Told) {
    if let Some(memory) = memory_in(alloc, given)
        && let Some(words) = numbers_in(alloc, input)
        && let Ok(ranges) = ranges_of(alloc, words.as_slice())
        && let Ok(visible) = visible_part(alloc, &memory, &ranges)
    {
        show_memory(&visible, told);
    } else {
        told.fail();
    }
}

/// Tells what comes of an input. Whether it is a table of memory.
pub fn answer(alloc: Global, table: &str, given: &[u8], input: &[u8], told: &mut Told) -> bool {
    match table {
        "loads" => tell_load(alloc, given, input, told),
        "stores" => tell_store(alloc, given, input, told),
        "writes" => tell_writes(alloc, given, input, told),
        "visible" => tell_visible(alloc, given, input, told),
        _ => return false,
    }
    true
}
