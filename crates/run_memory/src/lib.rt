//! The memory of a run: aligned accesses of one to eight bytes, lowest byte first, the writes of a
//! called function, and the part of memory that a caller sees; and the addresses of symbols.
//!
//! Each call equals its definition over the list of bytes that [`Memories`] stands for. A look-up
//! takes the logarithm of the memory's size. Nothing here adds an address to memory or takes one
//! away.
#![tactic(auto)]

ghost use Rattle.std.specs.Prelude.{◌≡◌, ◌+◌, ◌*◌, ◌%◌, ◌^◌, ◌<◌, ◌≤◌, ◌∷◌, ℕ, length, false, None, Some, IfOk, IfSome, MatchBool};
ghost use Rattle.bits64.specs.Words.{bits_of, bytes_of};
ghost use Rattle.rtx_tree.specs.Memories.{IsOrdered};
ghost use Rattle.run_memory.specs.RunMemory as spec;

use bits64::Width;
use plain_data::{Items, Memory};
use rtx_tree::{ByteWrites, MemByte, Memories, RangeAt, Ranges};
use std::alloc::Global;

mod symbols;

pub use symbols::symbol_address;

/// The number that `count` bytes from an address on make, the lowest first, or `None` where one of
/// them is missing.
fn number_at(memory: &Memories, address: u64, count: u32) -> Option<u64>
    requires small { count ≤ 8 }
    requires within { address + count ≤ 2 ^ 64 }
    ensures value { result ≡ spec.number_at memory.now address count }
    ensures fits { IfSome result (λ number. number < 256 ^ count) }
{
    if count == 0 {
        return Some(0);
    }
    let byte = memory.byte_at(address)?;
    let rest = number_at(memory, address.wrapping_add(1), count - 1)?;
    Some(u64::from(byte) + 256 * rest)
}

fn is_aligned(w: Width, address: u64) -> bool
    ensures value { result ≡ spec.is_aligned w address }
{
    address.is_multiple_of(u64::from(w.bytes()))
}

/// What stands at an address in a width. `None` where the address is no multiple of the width's
/// size, or a byte is missing.
pub fn load(memory: &Memories, w: Width, address: u64) -> Option<u64>
    ensures value { result ≡ spec.load w memory.now address }
    ensures fits { IfSome result (λ number. number < 2 ^ bits_of w) }
{
    if is_aligned(w, address) {
        number_at(memory, address, w.bytes())
    } else {
        None
    }
}

/// Writes the lowest `count` bytes of a number from an address on, the lowest first.
fn write_number(memory: &mut Memories, address: u64, count: u64, number: u64)
    requires { address + count ≤ 2 ^ 64 }
    ensures { memory.new ≡ spec.with_number memory.old address count number }
{
    let mut rest = number;
    for place in 0..count {
        memory.set_byte(address + place, (rest % 256) as u8);
        rest /= 256;
    }
}

/// Writes the low bits of a number at an address. Where a load there has no value it answers false,
/// and memory is as before.
pub fn store(memory: &mut Memories, w: Width, address: u64, value: u64) -> bool
    ensures { MatchBool result (spec.store w memory.old address value ≡ Some memory.new)
        ((spec.store w memory.old address value ≡ None) × (memory.new ≡ memory.old)) }
{
    if load(memory, w, address).is_none() {
        return false;
    }
    write_number(memory, address, u64::from(w.bytes()), value);
    true
}

/// Writes bytes one after the other. One at an address that memory does not have is passed over.
pub fn write_all(memory: &mut Memories, writes: &ByteWrites)
    ensures { memory.new ≡ spec.written writes.now memory.old }
{
    for write in writes.as_slice() {
        memory.set_byte(write.address, write.byte);
    }
}

fn is_in(address: u64, range: RangeAt) -> bool
    ensures { result ≡ spec.is_in address range }
{
    range.address <= address && address - range.address < range.length
}

fn is_visible(ranges: &Ranges, address: u64) -> bool
    ensures { result ≡ spec.is_visible ranges.now address }
{
    ranges.as_slice().iter().any(|range| is_in(address, *range))
}

/// The nearest beginning of a range above an address, or the greatest address where there is none.
fn next_start(ranges: &Ranges, address: u64) -> u64
    ensures { spec.is_visible ranges.now address ≡ false → (between : ℕ) →
        address ≤ between → between < result → spec.is_visible ranges.now between ≡ false }
{
    let mut next = u64::MAX;
    for range in ranges.as_slice() {
        if address < range.address && range.address < next {
            next = range.address;
        }
    }
    next
}

/// What stands behind a byte that is not visible, from the next range on. It is found by halves.
fn after_gap<'a>(ranges: &Ranges, hidden: MemByte, behind: &'a [MemByte]) -> &'a [MemByte]
    requires ordered { IsOrdered (hidden ∷ behind.now) }
    requires is_hidden { spec.is_visible ranges.now hidden.address ≡ false }
    ensures visible { spec.visible ranges.now result.now ≡ spec.visible ranges.now behind.now }
    ensures ordered { IsOrdered result.now }
    ensures shorter { length result.now ≤ length behind.now }
{
    let next = next_start(ranges, hidden.address);
    let gap = behind.partition_point(|b| b.address < next);
    &behind[gap..]
}

/// The part of memory that lies in one of the ranges. Each gap between them is passed over at once.
pub fn visible_part(alloc: Global, memory: &Memories, ranges: &Ranges) -> Result<Memories, Memory>
    ensures { IfOk result (λ part. part ≡ spec.visible ranges.now memory.now) }
{
    let mut part = Items::new(alloc);
    let mut rest = memory.bytes();
    while let Some((byte, behind)) = rest.split_first() {
        if is_visible(ranges, byte.address) {
            part.push(*byte)?;
            rest = behind;
        } else {
            rest = after_gap(ranges, *byte, behind);
        }
    }
    Ok(Memories::from_items(part))
}
