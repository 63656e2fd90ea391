//! Slots, and the list of the free ones.
ghost use Rattle.std.specs.Prelude.{◌≡◌, ℕ, ◌+◌, ◌^◌, ◌<◌, ◌≤◌, ◌++◌, map, replicate, None, vec_len, vec_capacity, length, IfOk, OnOk, OnErr};
ghost use Rattle.node_pool.specs.machine.Links.{AreLinked};
ghost use Rattle.node_pool.specs.machine.Links.{value_of, Links};

use plain_data::Memory;

/// A slot: a value, or nothing and the slot of the list that is next.
#[derive(Drop)]
pub struct Slot<T> {
    /// The value, if the slot holds one.
    pub value: Option<T>,
    /// Of a free slot: the number of the next free one, or [`END`].
    pub next: u32,
}

/// What ends the list of the free slots: no slot has this number.
pub const END: u32 = u32::MAX;

/// Puts so many free slots at the end, in front of the list of the free ones, and gives the first.
pub fn add_free<T>(slots: &mut Vec<Slot<T>>, first: u32, count: usize) -> u32
    requires room { vec_len slots.old + count ≤ vec_capacity slots.old }
    requires numbers { vec_len slots.old + count < 2 ^ 32 }
    ensures values { map value_of slots.new.items ≡ map value_of slots.old.items ++ replicate count None }
    ensures links { (free : ℕ) → Links slots.old.items free first →
        Links slots.new.items (free + count) result }
{
    let mut next = first;
    for _ in 0..count {
        let here = slots.len() as u32;
        slots.push_reserved(Slot { value: None, next });
        next = here;
    }
    next
}

/// Makes room for so many free slots more and puts them at the end. Gives the first of the free ones.
/// It wants numbers for them, as it wants memory.
pub fn grow<T>(slots: &mut Vec<Slot<T>>, first: u32, more: usize) -> Result<u32, Memory>
    requires { length slots.old.items < 2 ^ 32 }
    ensures values { OnOk result (map value_of slots.new.items ≡
        map value_of slots.old.items ++ replicate more None) }
    ensures linked { IfOk result (λ next. (spare : ℕ) → AreLinked slots.old.items first spare →
        AreLinked slots.new.items next (spare + more)) }
    ensures err { OnErr result (slots.new.items ≡ slots.old.items) }
{
    if more > END as usize - slots.len() {
        return Err(Memory);
    }
    slots.reserve(more)?;
    Ok(add_free(slots, first, more))
}
