//! The start from which a function and its code are tried.
ghost use Rattle.std.specs.Prelude.{◌≡◌, ◌≤◌, ◌+◌, ◌-◌, ◌^◌, ◌∷◌, ◌++◌, IfOk, OnOk};
ghost use Rattle.code_eval.specs.Start as spec;

use plain_data::{Items, Memory};
use rtx_tree::{Function, MemByte, Memories, RangeAt, Ranges, Start};
use std::alloc::Global;

/// The range that the caller sees.
const CALLER_RANGE: RangeAt = RangeAt {
    address: 65_536,
    length: 4_096,
};

/// The value of `sp`.
const STACK_TOP: u64 = 1_179_648;

/// How many bytes of the stack there are below it.
const STACK_ROOM: u64 = 1_048_576;

/// Puts so many bytes that are zero behind others.
fn push_zeros(bytes: &mut Vec<MemByte>, address: u64, count: u64) -> Result<(), Memory>
    requires { address + count ≤ 2 ^ 64 }
    ensures { OnOk result (bytes.new.items ≡ bytes.old.items ++ spec.zeros address count) }
{
    for place in 0..count {
        bytes.push(MemByte {
            address: address + place,
            byte: 0,
        })?;
    }
    Ok(())
}

/// The caller's bytes, and so many below `sp`.
fn memory_with(alloc: Global, room: u64) -> Result<Memories, Memory>
    requires { room ≤ spec.stack_room }
    ensures { IfOk result (λ memory. memory ≡ spec.memory_with room) }
{
    let mut bytes = Vec::new(alloc);
    push_zeros(&mut bytes, CALLER_RANGE.address, CALLER_RANGE.length)?;
    push_zeros(&mut bytes, STACK_TOP - room, room)?;
    Ok(Memories::from_items(Items::from_vec(bytes)))
}

/// The range of so many bytes of locals.
fn locals_below(locals: u64) -> RangeAt
    ensures { result ≡ record { address = spec.stack_top - locals; length = locals } }
{
    RangeAt {
        address: STACK_TOP.saturating_sub(locals),
        length: locals,
    }
}

/// What the caller sees: its own range, and that of the locals, where there are any.
#[tactic(auto, using(crate::proofs::Zeros::locals_there, crate::proofs::Zeros::locals_missing))]
fn visible_with(alloc: Global, locals: u64) -> Result<Ranges, Memory>
    ensures { IfOk result (λ ranges. ranges ≡ spec.caller_range ∷ spec.locals_below locals) }
{
    let mut ranges = Items::new(alloc);
    ranges.push(CALLER_RANGE)?;
    if locals > 0 {
        ranges.push(locals_below(locals))?;
    }
    Ok(ranges)
}

fn start_with(alloc: Global, args: [u64; 8], locals: u64, room: u64) -> Result<Start, Memory>
    requires { room ≤ spec.stack_room }
    ensures { IfOk result (λ start. start ≡ spec.start_with args locals room) }
{
    Ok(Start {
        args,
        sp: STACK_TOP,
        vars: STACK_TOP,
        ra: 0,
        saved: [0; 12],
        memory: memory_with(alloc, room)?,
        visible: visible_with(alloc, locals)?,
    })
}

/// Where the code of a function starts.
pub fn code_start(alloc: Global, f: &Function, args: [u64; 8]) -> Result<Start, Memory>
    ensures { IfOk result (λ start. start ≡ spec.code_start f.now args) }
{
    start_with(alloc, args, u64::from(f.locals), STACK_ROOM)
}

/// Where a function starts.
pub fn rtl_start(alloc: Global, f: &Function, args: [u64; 8]) -> Result<Start, Memory>
    ensures { IfOk result (λ start. start ≡ spec.rtl_start f.now args) }
{
    let locals = u64::from(f.locals);
    start_with(alloc, args, locals, locals.min(STACK_ROOM))
}
