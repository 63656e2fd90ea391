//! A function with what is known of it.
ghost use Rattle.std.specs.Prelude.{◌≡◌, ◌↔◌, ◌+◌, ◌≤◌, ◌<◌, ◌^◌, ℕ, true, Some, length, slice_get};
ghost use Rattle.std.specs.Prelude.{IfOk, IfSome, OnOk, OnErr};
ghost use Rattle.std.specs.Cow.{cow_slice_items};
ghost use Rattle.rtx_tree.specs.RegSet.{has_reg};
ghost use Rattle.live.specs.Live.{AreLiveAfter, AreLiveRows, IsLive, IsLiveAfter};
ghost use Rattle.new_insns.specs.Replaced.{replaced, window};
ghost use Rattle.live_chain.specs.Rows.{AreRowsFor};
ghost use Rattle.live_chain.specs.Stays.{StaysBefore};
ghost use Rattle.rtl_chain.specs.Counts as counts;
ghost use Rattle.live_chain.specs.machine.Whole.{with_chain};

use crate::behind::{is_after, is_before};
use crate::kept::{
    WindowRows, is_same_before, move_rows, rows_inside, rows_joined, rows_put, same_to,
};
use crate::lent::window_of;
use crate::narrow::live_behind;
use crate::numbers::{
    count_after, count_around, count_beside, count_of, count_put, pseudo_after, pseudo_of,
    pseudo_put, uid_after, uid_of, uid_put,
};
use gap_list::GapList;
use live::live_rows_of;
use plain_data::{Items, Memory};
use reg_rows::RegRow;
use rtl_chain::{greatest_uid, instruction_count, next_pseudo};
use rtx_tree::{Function, Insn, Insns, RegSet};
use std::alloc::Global;
use std::borrow::CowSlice;
use std::marker::Model;
use std::mem;

/// A function, with what is known of it while windows of its chain are replaced: the registers that
/// are live at its places, its greatest uid, its next free pseudo register, how many instructions
/// it has. Contracts see the function. Its chain and the rows have a gap, which stands behind the
/// window that was replaced last.
#[derive(Drop)]
pub struct LiveChain {
    /// The function without its chain.
    frame: Function,
    insns: GapList<Insn>,
    /// The rows of the registers that are live before each place and before the end, if known.
    rows: Option<GapList<RegRow>>,
    greatest: Option<u32>,
    next: Option<u64>,
    /// How many instructions the chain has, if known.
    count: Option<usize>,
}

impl Model for LiveChain {
    ghost use Rattle.rtx_tree.specs.declared.function.Function.{Function};
    ghost use Rattle.rtx_tree.specs.contracts.function.Function as function_type;
    ghost use Rattle.live_chain.specs.machine.Whole.{with_chain};
    ghost use Rattle.live_chain.specs.machine.Kept.{IsKept};

    ghost Value = { Function };

    ghost coded = { function_type.the_row.coded };

    ghost view = { λ c. with_chain c.frame c.insns };

    ghost invariant = { λ c.
        IsKept (with_chain c.frame c.insns) c.rows c.greatest c.next c.count };
}

/// The rows of the function, computed anew.
fn rows_anew(
    alloc: Global,
    frame: &mut Function,
    insns: &mut GapList<Insn>,
) -> Result<GapList<RegRow>, Memory>
    ensures rows { IfOk result (AreLiveRows (with_chain frame.old insns.old)) }
    ensures same { with_chain frame.new insns.new ≡ with_chain frame.old insns.old }
{
    frame.insns = insns.take_all(alloc)?;
    let rows = live_rows_of(alloc, frame);
    *insns = GapList::of(alloc, mem::replace(&mut frame.insns, Items::new(alloc)));
    Ok(GapList::of(alloc, Items::from_vec(rows?)))
}

impl LiveChain {
    /// A function of which nothing is known yet. It takes no memory.
    pub fn of(alloc: Global, function: Function) -> LiveChain
        ensures { result ≡ function }
    {
        let mut frame = function;
        let insns = mem::replace(&mut frame.insns, Items::new(alloc));
        LiveChain {
            frame,
            insns: GapList::of(alloc, insns),
            rows: None,
            greatest: None,
            next: None,
            count: None,
        }
    }

    /// How many places the chain has.
    pub fn len(&self) -> usize
        ensures { result ≡ length self.now.insns }
    {
        self.insns.len()
    }

    /// The instruction at a place.
    pub fn insn(&self, place: u32) -> &Insn
        requires { place < length self.now.insns }
        ensures { slice_get self.now.insns place ≡ Some result.now }
    {
        self.insns.item(place as usize)
    }

    /// The function, no longer kept.
    ///
    /// # Errors
    ///
    /// `Memory` where memory ran out.
    pub fn into_function(self, alloc: Global) -> Result<Function, Memory>
        ensures { IfOk result (λ f. f ≡ self) }
    {
        let LiveChain {
            mut frame,
            mut insns,
            ..
        } = self;
        frame.insns = insns.take_all(alloc)?;
        Ok(frame)
    }

    /// The registers that are live after a place. A chain of 2^32 places or more finds no memory.
    ///
    /// # Errors
    ///
    /// `Memory` where memory ran out.
    pub fn live_after(&mut self, alloc: Global, place: u32) -> Result<RegSet, Memory>
        ensures live { IfOk result (AreLiveAfter self.old place) }
        ensures small { IfOk result (λ live. (reg : ℕ) → has_reg live reg ≡ true → reg < 2 ^ 32) }
        ensures same { self.new ≡ self.old }
    {
        let rows = match self.rows.take() {
            Some(rows) => rows,
            None => rows_anew(alloc, &mut self.frame, &mut self.insns)?,
        };
        let live = live_behind(alloc, &self.insns, &rows, place);
        self.rows = Some(rows);
        live
    }

    /// Whether a register is live after a place. A chain of 2^32 places or more finds no memory.
    ///
    /// # Errors
    ///
    /// `Memory` where memory ran out.
    pub fn is_live_after(&mut self, alloc: Global, place: u32, reg: u32) -> Result<bool, Memory>
        ensures live { IfOk result (λ live. (live ≡ true) ↔ IsLiveAfter self.old reg place) }
        ensures same { self.new ≡ self.old }
    {
        let rows = match self.rows.take() {
            Some(rows) => rows,
            None => rows_anew(alloc, &mut self.frame, &mut self.insns)?,
        };
        let live = is_after(&self.insns, &rows, place, reg);
        self.rows = Some(rows);
        live
    }

    /// Whether a register is live before a place.
    ///
    /// # Errors
    ///
    /// `Memory` where memory ran out.
    pub fn is_live_before(&mut self, alloc: Global, place: u32, reg: u32) -> Result<bool, Memory>
        ensures live { IfOk result (λ live. (live ≡ true) ↔ IsLive self.old reg place) }
        ensures same { self.new ≡ self.old }
    {
        let rows = match self.rows.take() {
            Some(rows) => rows,
            None => rows_anew(alloc, &mut self.frame, &mut self.insns)?,
        };
        let live = is_before(&rows, place, reg);
        self.rows = Some(rows);
        Ok(live)
    }

    /// The greatest uid of the chain, or 0 where there is none. It takes no memory.
    pub fn greatest_uid(&mut self) -> u32
        ensures uid { result ≡ counts.greatest_uid self.old.insns }
        ensures same { self.new ≡ self.old }
    {
        match self.greatest {
            Some(uid) => uid,
            None => {
                let uid = uid_of(&self.insns);
                self.greatest = Some(uid);
                uid
            }
        }
    }

    /// One above the greatest number of a pseudo register of the chain, or 0 where it names none.
    /// The call takes no memory.
    pub fn next_pseudo(&mut self) -> u64
        ensures next { result ≡ counts.next_pseudo self.old.insns }
        ensures same { self.new ≡ self.old }
    {
        match self.next {
            Some(next) => next,
            None => {
                let next = pseudo_of(&self.insns);
                self.next = Some(next);
                next
            }
        }
    }

    /// How many instructions the chain has, labels and barriers aside. The call takes no memory;
    /// more than 64 bits count are answered as want of it.
    ///
    /// # Errors
    ///
    /// `Memory` where so many have no number.
    pub fn instruction_count(&mut self) -> Result<usize, Memory>
        ensures count { IfOk result (λ n. n ≡ counts.instruction_count self.old.insns) }
        ensures same { self.new ≡ self.old }
    {
        match self.count {
            Some(count) => Ok(count),
            None => {
                let Some(count) = count_of(&self.insns) else {
                    return Err(Memory);
                };
                self.count = Some(count);
                Ok(count)
            }
        }
    }

    /// How many instructions the chain would have with others in the place of the one at a place.
    ///
    /// # Errors
    ///
    /// `Memory` where so many have no number.
    pub fn count_with(&mut self, place: u32, new: &[Insn]) -> Result<usize, Memory>
        requires { place < length self.old.insns }
        ensures count { IfOk result (λ n. n
            ≡ counts.instruction_count (replaced self.old place (place + 1) new.now).insns) }
        ensures same { self.new ≡ self.old }
    {
        let all = self.instruction_count()?;
        match count_beside(all, self.insn(place), new) {
            Some(count) => Ok(count),
            None => Err(Memory),
        }
    }

    /// How many instructions the chain would have with others in the place of a window, that from
    /// place `first` up to place `end`.
    ///
    /// # Errors
    ///
    /// `Memory` where so many have no number, or where memory ran out.
    pub fn count_between(
        &mut self,
        alloc: Global,
        first: u32,
        end: u32,
        new: &[Insn],
    ) -> Result<usize, Memory>
        requires order { first ≤ end }
        requires within { end ≤ length self.old.insns }
        ensures count { IfOk result (λ n. n
            ≡ counts.instruction_count (replaced self.old first end new.now).insns) }
        ensures same { self.new ≡ self.old }
    {
        let all = self.instruction_count()?;
        self.insns.move_gap(end as usize)?;
        let old = window_of(alloc, &self.insns, first, end)?;
        match count_around(all, old.as_slice(), new) {
            Some(count) => Ok(count),
            None => Err(Memory),
        }
    }

    /// Moves the gap to a place. The windows that end there are lent then.
    ///
    /// # Errors
    ///
    /// `Memory` where memory ran out.
    pub fn move_gap(&mut self, place: u32) -> Result<(), Memory>
        requires { place ≤ length self.old.insns }
        ensures { self.new ≡ self.old }
    {
        self.insns.move_gap(place as usize)
    }

    /// The instructions of a window, that from place `first` up to place `end`. Where the gap
    /// doesn't stand before its end they are lent, which takes no memory, and else copied.
    ///
    /// # Errors
    ///
    /// `Memory` where memory ran out.
    pub fn window(&self, alloc: Global, first: u32, end: u32) -> Result<CowSlice<'_, Insn>, Memory>
        requires order { first ≤ end }
        requires within { end ≤ length self.now.insns }
        ensures { IfOk result (λ insns. cow_slice_items insns ≡ window self.now first end) }
    {
        window_of(alloc, &self.insns, first, end)
    }

    /// Puts new instructions in the place of a window, that from place `first` up to place `end`.
    /// Gives a place so that after each place in front of it the same registers are seen to be live
    /// as before. After `Memory` the function is as before.
    ///
    /// # Errors
    ///
    /// `Memory` where memory ran out.
    pub fn replace(
        &mut self,
        alloc: Global,
        first: u32,
        end: u32,
        new: Insns,
    ) -> Result<u32, Memory>
        requires order { first ≤ end }
        requires within { end ≤ length self.old.insns }
        ensures replaced { OnOk result (self.new ≡ replaced self.old first end new) }
        ensures stays { IfOk result (StaysBefore self.old self.new) }
        ensures before { IfOk result (λ from. from ≤ first) }
        ensures kept { OnErr result (self.new ≡ self.old) }
    {
        self.insns.move_gap(end as usize)?;
        let window = window_of(alloc, &self.insns, first, end)?;
        let old = window.as_slice();
        let greatest = uid_after(
            self.greatest,
            greatest_uid(old),
            greatest_uid(new.as_slice()),
        );
        let next = pseudo_after(self.next, next_pseudo(old), next_pseudo(new.as_slice()));
        let count = count_after(
            self.count,
            instruction_count(old),
            instruction_count(new.as_slice()),
        );
        let inside = rows_inside(
            alloc,
            &self.insns,
            &self.rows,
            first,
            end,
            old,
            new.as_slice(),
        )?;
        let from = same_to(&inside);
        drop(window);
        self.insns.splice(first as usize, end as usize, new)?;
        self.rows = rows_joined(self.rows.take(), end, inside);
        self.greatest = greatest;
        self.next = next;
        self.count = count;
        Ok(from)
    }

    /// The rows for new instructions in the place of a window, that from place `first` up to place
    /// `end`, if those outside it, but for some in front of it, are seen to stay.
    ///
    /// # Errors
    ///
    /// `Memory` where memory ran out.
    pub fn rows_for(
        &mut self,
        alloc: Global,
        first: u32,
        end: u32,
        new: &[Insn],
    ) -> Result<Option<WindowRows>, Memory>
        requires order { first ≤ end }
        requires within { end ≤ length self.old.insns }
        ensures rows { IfOk result (λ rows. IfSome rows (AreRowsFor self.old first end new.now)) }
        ensures same { self.new ≡ self.old }
    {
        self.insns.move_gap(end as usize)?;
        move_rows(&mut self.rows, end)?;
        let old = window_of(alloc, &self.insns, first, end)?;
        rows_inside(
            alloc,
            &self.insns,
            &self.rows,
            first,
            end,
            old.as_slice(),
            new,
        )
    }

    /// Puts new instructions, with the rows that were made for them, in the place of a window that
    /// has as many or more. It takes no memory, so once both are made nothing is refused. Says
    /// whether after each place in front of the window the same registers are seen to be live as
    /// before.
    pub fn fuse(&mut self, first: u32, end: u32, new: Insns, rows: Option<WindowRows>) -> bool
        requires shorter { first + length new ≤ end }
        requires within { end ≤ length self.old.insns }
        requires rows { IfSome rows (AreRowsFor self.old first end new) }
        ensures replaced { self.new ≡ replaced self.old first end new }
        ensures stays { result ≡ true → StaysBefore self.old self.new first }
    {
        let old = self.insns.between(first as usize, end as usize);
        let greatest = uid_put(self.greatest, old, new.as_slice());
        let next = pseudo_put(self.next, old, new.as_slice());
        let count = count_put(self.count, old, new.as_slice());
        let same = is_same_before(first, &rows);
        self.insns.put_within(first as usize, end as usize, new);
        self.rows = rows_put(self.rows.take(), end, rows);
        self.greatest = greatest;
        self.next = next;
        self.count = count;
        same
    }
}
