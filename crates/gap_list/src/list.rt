//! A list with a gap.
ghost use Rattle.std.specs.Prelude.{◌≡◌, ◌+◌, ◌<◌, ◌≤◌, ◌++◌, [], length, reverse, slice_get, slice_range};
ghost use Rattle.std.specs.Prelude.{Some, IfOk, IfSome, OnOk, OnErr};
ghost use Rattle.std.specs.List.{splice};

use crate::parts::{out_from, put_from, shift};
use plain_data::{Items, Memory};
use std::alloc::Global;
use std::marker::Model;
use std::mem;

/// A list that is changed near one place, where it has a gap. Contracts see it as the list of its
/// elements.
#[derive(Drop)]
pub struct GapList<T> {
    /// The elements before the gap.
    front: Vec<T>,
    /// The elements behind the gap, the last first.
    back: Vec<T>,
}

impl<T> Model for GapList<T> {
    ghost use Rattle.std.specs.Prelude.{List, ◌++◌, reverse};
    ghost use Rattle.std.specs.Coded.{coded_list};

    ghost Value = { List T };

    ghost coded = { coded_list T.code };

    ghost view = { λ list. list.front.items ++ reverse list.back.items };
}

impl<T> GapList<T> {
    /// A list with its gap at the end. It takes no memory.
    pub fn of(alloc: Global, list: Items<T>) -> GapList<T>
        ensures { result ≡ list }
    {
        GapList {
            front: list.into_vec(),
            back: Vec::new(alloc),
        }
    }

    /// How many elements there are.
    pub fn len(&self) -> usize
        ensures { result ≡ length self.now }
    {
        self.front.len() + self.back.len()
    }

    /// The element at a place, counted from 0.
    pub fn item(&self, at: usize) -> &T
        requires { at < length self.now }
        ensures { slice_get self.now at ≡ Some result.now }
    {
        let before = self.front.len();
        if at < before {
            &self.front[at]
        } else {
            &self.back[self.back.len() - 1 - (at - before)]
        }
    }

    /// The elements before the gap, and those behind it, the last first.
    pub fn parts(&self) -> (&[T], &[T])
        ensures { self.now ≡ result.0.now ++ reverse result.1.now }
    {
        (self.front.as_slice(), self.back.as_slice())
    }

    /// The elements between two places, where all of them stand before the gap.
    pub fn between(&self, first: usize, end: usize) -> Option<&[T]>
        requires { first ≤ end }
        ensures { IfSome result (λ items. items.now ≡ slice_range self.now first end) }
    {
        if end <= self.front.len() {
            Some(&self.front[first..end])
        } else {
            None
        }
    }

    /// Moves the gap to a place: each element between the place where it stood and this one is
    /// moved once.
    ///
    /// # Errors
    ///
    /// `Memory` where memory ran out.
    pub fn move_gap(&mut self, place: usize) -> Result<(), Memory>
        requires { place ≤ length self.old }
        ensures { self.new ≡ self.old }
    {
        shift(&mut self.front, &mut self.back, place)
    }

    /// Takes all elements out. After `Memory` the list is as before.
    ///
    /// # Errors
    ///
    /// `Memory` where memory ran out.
    pub fn take_all(&mut self, alloc: Global) -> Result<Items<T>, Memory>
        ensures all { IfOk result (λ list. list ≡ self.old) }
        ensures ok { OnOk result (self.new ≡ []) }
        ensures err { OnErr result (self.new ≡ self.old) }
    {
        let len = self.front.len() + self.back.len();
        shift(&mut self.front, &mut self.back, len)?;
        let front = mem::replace(&mut self.front, Vec::new(alloc));
        Ok(Items::from_vec(front))
    }
}

impl<T: Drop> GapList<T> {
    /// Puts new elements in the place of those between two places, and moves the gap behind them.
    /// After `Memory` the list is as before.
    ///
    /// # Errors
    ///
    /// `Memory` where memory ran out.
    pub fn splice(&mut self, first: usize, end: usize, new: Items<T>) -> Result<(), Memory>
        requires order { first ≤ end }
        requires within { end ≤ length self.old }
        ensures ok { OnOk result (self.new ≡ splice self.old first end new) }
        ensures err { OnErr result (self.new ≡ self.old) }
    {
        shift(&mut self.front, &mut self.back, end)?;
        let _gone = self.front.splice(first..end, new.into_vec())?;
        Ok(())
    }

    /// Puts new elements in the place of those between two places, which are as many or more. It
    /// takes no memory, wherever the gap stands.
    pub fn put_within(&mut self, first: usize, end: usize, new: Items<T>)
        requires shorter { first + length new ≤ end }
        requires within { end ≤ length self.old }
        ensures { self.new ≡ splice self.old first end new }
    {
        let behind = put_from(&mut self.front, &mut self.back, first, new);
        out_from(&mut self.front, &mut self.back, behind, end - behind);
    }
}
