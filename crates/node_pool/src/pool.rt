//! A pool.
ghost use Rattle.std.specs.Prelude.{◌≡◌, ◌<◌, ◌≤◌, ◌+◌, ℕ, [], length, map, replicate, Some, None, slice_get, slice_set, OnOk, OnErr};
ghost use Rattle.node_pool.specs.Slots.{value_at, IsLive, spare_of};

use crate::id::Id;
use crate::slot::{END, Slot, add_free, grow};
use plain_data::Memory;
use std::alloc::Global;
use std::marker::{Model, PhantomData};
use std::mem;

/// Values under ids. Contracts see the list of what its slots hold, some of them nothing.
#[derive(Drop)]
pub struct Pool<T> {
    slots: Vec<Slot<T>>,
    /// The first of the free slots.
    first: u32,
    /// How many slots are free.
    spare: usize,
}

impl<T> Model for Pool<T> {
    ghost use Rattle.std.specs.Prelude.{List, Option, map};
    ghost use Rattle.std.specs.Coded.{coded_list, coded_option};

    ghost Value = { List (Option T) };

    ghost coded = { coded_list (coded_option T.code) };

    ghost use Rattle.node_pool.specs.machine.Links.{value_of, AreLinked};

    ghost view = { λ pool. map value_of pool.slots.items };

    ghost invariant = { λ pool. AreLinked pool.slots.items pool.first pool.spare };
}

impl<T> Pool<T> {
    /// A pool of no slots. It takes no memory.
    pub fn new(alloc: Global) -> Pool<T>
        ensures { result ≡ [] }
    {
        Pool {
            slots: Vec::new(alloc),
            first: END,
            spare: 0,
        }
    }

    /// For how many values more there is room.
    pub fn spare(&self) -> usize
        ensures { result ≡ spare_of self.now }
    {
        self.spare
    }

    /// Makes room for so many values. After `Memory` the pool is as before. It wants numbers for the
    /// slots, as it wants memory.
    ///
    /// # Errors
    ///
    /// `Memory` where memory ran out.
    pub fn reserve(&mut self, count: usize) -> Result<(), Memory>
        ensures room { OnOk result (count ≤ spare_of self.new) }
        ensures same { (id : ℕ) → value_at self.new id ≡ value_at self.old id }
        ensures more { spare_of self.old ≤ spare_of self.new }
        ensures err { OnErr result (self.new ≡ self.old) }
    {
        if count <= self.spare {
            return Ok(());
        }
        let more = count - self.spare;
        self.first = grow(&mut self.slots, self.first, more)?;
        self.spare = count;
        Ok(())
    }

    /// The value under an id.
    pub fn get(&self, id: Id<T>) -> &T
        requires { IsLive self.now id.index }
        ensures { value_at self.now id.index ≡ Some result.now }
    {
        let slot = &self.slots[id.index as usize];
        match &slot.value {
            Some(value) => value,
            None => unreachable!(),
        }
    }

    /// Puts another value under an id, and gives the one that was there.
    pub fn set(&mut self, id: Id<T>, value: T) -> T
        requires { IsLive self.old id.index }
        ensures slots { self.new ≡ slice_set self.old id.index (Some value) }
        ensures old { value_at self.old id.index ≡ Some result }
    {
        let slot = &mut self.slots[id.index as usize];
        match mem::replace(&mut slot.value, Some(value)) {
            Some(old) => old,
            None => unreachable!(),
        }
    }

    /// Takes the value under an id out. Its slot is free for another.
    pub fn take(&mut self, id: Id<T>) -> T
        requires { IsLive self.old id.index }
        ensures slots { self.new ≡ slice_set self.old id.index None }
        ensures old { value_at self.old id.index ≡ Some result }
        ensures spare { spare_of self.new ≡ spare_of self.old + 1 }
    {
        let slot = &mut self.slots[id.index as usize];
        let held = mem::replace(&mut slot.value, None);
        slot.next = self.first;
        self.first = id.index;
        self.spare += 1;
        match held {
            Some(old) => old,
            None => unreachable!(),
        }
    }
}

impl<T: Drop> Pool<T> {
    /// Puts a value in, under an id that was free. It takes no memory.
    pub fn put(&mut self, value: T) -> Id<T>
        requires { 0 < spare_of self.old }
        ensures free { slice_get self.old result.index ≡ Some None }
        ensures slots { self.new ≡ slice_set self.old result.index (Some value) }
        ensures there { value_at self.new result.index ≡ Some value }
        ensures spare { spare_of self.new + 1 ≡ spare_of self.old }
    {
        let index = self.first;
        let slot = &mut self.slots[index as usize];
        slot.value = Some(value);
        self.first = slot.next;
        self.spare -= 1;
        Id {
            index,
            of: PhantomData,
        }
    }

    /// Takes all values out. Their slots are free for others.
    pub fn clear(&mut self)
        ensures { self.new ≡ replicate (length self.old) None }
    {
        let count = self.slots.len();
        self.slots.clear();
        self.first = add_free(&mut self.slots, END, count);
        self.spare = count;
    }
}
