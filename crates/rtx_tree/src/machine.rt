//! What a run of a function begins with, and what it meets outside.
use crate::memories::{MemByte, Memories};
use crate::name::Name;
use plain_data::Items;

/// A range of addresses.
#[derive(Clone, Copy)]
pub struct RangeAt {
    /// The first address.
    pub address: u64,
    /// How many addresses there are.
    pub length: u64,
}

/// Ranges of addresses.
pub type Ranges = Items<RangeAt>;

/// A symbol with its address.
#[derive(Drop)]
pub struct SymbolAt {
    /// The symbol.
    pub name: Name,
    /// The symbol's address.
    pub address: u64,
}

/// Symbols with their addresses, each symbol once.
pub type Symbols = Items<SymbolAt>;

/// Bytes that are written one after the other, so that a later one at an address stays.
pub type ByteWrites = Items<MemByte>;

/// What a called function does.
#[derive(Drop)]
pub struct Reply {
    /// What the function leaves in `a0`.
    pub value: u64,
    /// The bytes that the function writes into memory.
    pub writes: ByteWrites,
}

/// Replies to the calls of a run, in order.
pub type Replies = Items<Reply>;

/// What stands outside a function: where symbols are, and what its calls do.
#[derive(Drop)]
pub struct World {
    /// The symbols that have an address.
    pub symbols: Symbols,
    /// The replies to its calls.
    pub replies: Replies,
}

/// What a run of a function begins with. Every register that it does not name is unset.
#[derive(Drop)]
pub struct Start {
    /// `a0` to `a7`.
    pub args: [u64; 8],
    /// The stack pointer `sp`.
    pub sp: u64,
    /// The value of `virtual-stack-vars`.
    pub vars: u64,
    /// The return address `ra`.
    pub ra: u64,
    /// `s0` to `s11`.
    pub saved: [u64; 12],
    /// The bytes of memory that are there.
    pub memory: Memories,
    /// The part of memory that a caller sees: its own ranges, and that of the function's locals.
    pub visible: Ranges,
}
