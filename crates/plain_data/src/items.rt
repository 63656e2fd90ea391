//! A list in the code that is a list in contracts.
ghost use Rattle.std.specs.Borrow.{sem};
ghost use Rattle.std.specs.Prelude.{◌≡◌, [], ◌∷◌, ◌++◌, ◌<◌, ◌≤◌, length, slice_get, slice_set, IfOk, OnOk, OnErr, MatchOption, Some, IsTrue, ◌↔◌};
ghost use Rattle.std.specs.List.{insert, remove};

use crate::memory::Memory;
use std::alloc::Global;
use std::marker::Model;
use std::mem;

/// A growing list. Contracts see it as the list of its elements, whatever its capacity and address.
#[derive(Drop)]
pub struct Items<T> {
    vec: Vec<T>,
}

impl<T> Model for Items<T> {
    ghost use Rattle.std.specs.Prelude.{List};
    ghost use Rattle.std.specs.Coded.{coded_list};

    ghost Value = { List T };

    ghost coded = { coded_list T.code };

    ghost view = { λ list. list.vec.items };
}

impl<T> Items<T> {
    ghost use Rattle.plain_data.specs.Lends.{LendsItem};

    /// The empty list. It takes no memory.
    pub fn new(alloc: Global) -> Items<T>
        ensures { result ≡ [] }
    {
        Items {
            vec: Vec::new(alloc),
        }
    }

    /// The list of a vector's elements. It takes no memory.
    pub fn from_vec(vec: Vec<T>) -> Items<T>
        ensures { result ≡ vec.items }
    {
        Items { vec }
    }

    /// A vector of the list's elements. It takes no memory.
    pub fn into_vec(self) -> Vec<T>
        ensures { result.items ≡ self }
    {
        let Items { vec } = self;
        vec
    }

    /// The elements, in order.
    pub fn as_slice(&self) -> &[T]
        ensures value { result.now ≡ self.now }
        ensures len { length result.now ≡ length self.now }
    {
        self.vec.as_slice()
    }

    /// How many elements there are.
    pub fn len(&self) -> usize
        ensures { result ≡ length self.now }
    {
        self.vec.len()
    }

    /// Whether there is no element.
    pub fn is_empty(&self) -> bool
        ensures { IsTrue result ↔ (self.now ≡ []) }
    {
        self.vec.is_empty()
    }

    /// The element at place `at`, counted from 0.
    pub fn item(&self, at: usize) -> &T
        requires { at < length self.now }
        ensures { slice_get self.now at ≡ Some result.now }
    {
        &self.vec[at]
    }

    /// The element at place `at`, for writing. What is written through it stands there afterwards.
    pub fn item_mut(&mut self, at: usize) -> &mut T
        requires { at < length self.old }
        ensures* writes_back { sem 𝓛 (LendsItem T.row self.entry at result) }
        ensures value { slice_get self.old at ≡ Some result.now }
    {
        &mut self.vec[at]
    }

    /// Puts `item` at place `at`, and gives back what stood there.
    pub fn replace(&mut self, at: usize, item: T) -> T
        requires { at < length self.old }
        ensures items { self.new ≡ slice_set self.old at item }
        ensures old { slice_get self.old at ≡ Some result }
    {
        mem::replace(&mut self.vec[at], item)
    }

    /// Takes the element at place `at` out; those behind it move one place to the front. It takes
    /// no memory.
    pub fn remove(&mut self, at: usize) -> T
        requires { at < length self.old }
        ensures items { self.new ≡ remove self.old at }
        ensures old { slice_get self.old at ≡ Some result }
    {
        self.vec.remove(at)
    }

    /// Takes the last element away.
    pub fn pop(&mut self) -> Option<T>
        ensures { MatchOption result ((self.old ≡ []) × (self.new ≡ [])) (λ last.
            self.old ≡ self.new ++ last ∷ []) }
    {
        self.vec.pop()
    }
}

impl<T: Drop> Items<T> {
    /// Puts one element more at the end. After `Memory` the list is as before.
    pub fn push(&mut self, item: T) -> Result<(), Memory>
        ensures ok { OnOk result (self.new ≡ self.old ++ item ∷ []) }
        ensures err { OnErr result (self.new ≡ self.old) }
    {
        self.vec.push(item)?;
        Ok(())
    }

    /// Puts `item` at place `at`; the elements from there on move one place to the back. After
    /// `Memory` the list is as before.
    pub fn insert(&mut self, at: usize, item: T) -> Result<(), Memory>
        requires { at ≤ length self.old }
        ensures ok { OnOk result (self.new ≡ insert self.old at item) }
        ensures err { OnErr result (self.new ≡ self.old) }
    {
        self.vec.insert(at, item)?;
        Ok(())
    }

    /// The elements with those of another list behind them.
    pub fn append(self, more: Items<T>) -> Result<Items<T>, Memory>
        ensures { IfOk result (λ all. all ≡ self ++ more) }
    {
        let mut vec = self.into_vec();
        vec.append(&mut more.into_vec())?;
        Ok(Items { vec })
    }
}

impl<T: Copy> Items<T> {
    /// The list of a slice's elements.
    pub fn from_slice(alloc: Global, items: &[T]) -> Result<Items<T>, Memory>
        ensures { IfOk result (λ copy. copy ≡ items.now) }
    {
        Ok(Items {
            vec: Vec::from_slice(alloc, items)?,
        })
    }
}
