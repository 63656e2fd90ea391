//! The two parts of a list with a gap: the elements before the gap in order, and those behind it,
//! the last first.
ghost use Rattle.std.specs.Prelude.{◌≡◌, ◌+◌, ◌<◌, ◌≤◌, [], ◌++◌, length, reverse, slice_set};
ghost use Rattle.std.specs.Prelude.{vec_len, vec_capacity, OnOk};
ghost use Rattle.std.specs.List.{remove, splice};

use plain_data::{Items, Memory};
use std::mem;

/// Moves so many elements, one by one, from the end of a part to that of the other, which has room
/// for them.
fn pour<T>(from: &mut Vec<T>, to: &mut Vec<T>, count: usize)
    requires enough { count ≤ vec_len from.old }
    requires room { vec_len to.old + count ≤ vec_capacity to.old }
    ensures same { to.new.items ++ reverse from.new.items ≡ to.old.items ++ reverse from.old.items }
    ensures left { vec_len from.new + count ≡ vec_len from.old }
    ensures moved { vec_len to.new ≡ vec_len to.old + count }
{
    for _ in 0..count {
        to.push_reserved(from.take_last());
    }
}

/// Moves the gap to a place. After `Memory` it is where it was.
pub fn shift<T>(front: &mut Vec<T>, back: &mut Vec<T>, place: usize) -> Result<(), Memory>
    requires { place ≤ vec_len front.old + vec_len back.old }
    ensures same { front.new.items ++ reverse back.new.items ≡
        front.old.items ++ reverse back.old.items }
    ensures there { OnOk result (length front.new.items ≡ place) }
{
    let at = front.len();
    if place < at {
        back.reserve(at - place)?;
        pour(front, back, at - place);
    } else {
        front.reserve(place - at)?;
        pour(back, front, place - at);
    }
    Ok(())
}

/// Puts another element in the place of the one at a place of a part.
fn write<T>(part: &mut Vec<T>, at: usize, item: T) -> T
    requires { at < length part.old.items }
    ensures items { part.new.items ≡ slice_set part.old.items at item }
    ensures long { vec_len part.new ≡ vec_len part.old }
{
    mem::replace(&mut part[at], item)
}

/// Puts another element in the place of the one at a place of the list.
fn put_at<T>(front: &mut Vec<T>, back: &mut Vec<T>, at: usize, item: T) -> T
    requires { at < vec_len front.old + vec_len back.old }
    ensures list { front.new.items ++ reverse back.new.items ≡
        slice_set (front.old.items ++ reverse back.old.items) at item }
    ensures long { vec_len front.new + vec_len back.new ≡ vec_len front.old + vec_len back.old }
{
    let before = front.len();
    if at < before {
        write(front, at, item)
    } else {
        let place = back.len() - 1 - (at - before);
        write(back, place, item)
    }
}

/// Takes the element at a place of the list out.
fn out_at<T>(front: &mut Vec<T>, back: &mut Vec<T>, at: usize) -> T
    requires { at < vec_len front.old + vec_len back.old }
    ensures list { front.new.items ++ reverse back.new.items ≡
        remove (front.old.items ++ reverse back.old.items) at }
    ensures long { vec_len front.new + vec_len back.new + 1 ≡ vec_len front.old + vec_len back.old }
{
    let before = front.len();
    if at < before {
        front.remove(at)
    } else {
        let place = back.len() - 1 - (at - before);
        back.remove(place)
    }
}

/// Puts elements in the places of as many from a place on, the last first. Gives the place behind
/// them.
pub fn put_from<T: Drop>(
    front: &mut Vec<T>,
    back: &mut Vec<T>,
    first: usize,
    new: Items<T>,
) -> usize
    requires { first + length new ≤ vec_len front.old + vec_len back.old }
    ensures list { front.new.items ++ reverse back.new.items ≡
        splice (front.old.items ++ reverse back.old.items) first (first + length new) new }
    ensures end { result ≡ first + length new }
    ensures long { vec_len front.new + vec_len back.new ≡ vec_len front.old + vec_len back.old }
{
    let mut left = new;
    let behind = first + left.len();
    while let Some(item) = left.pop() {
        put_at(front, back, first + left.len(), item);
    }
    behind
}

/// Takes so many elements out from a place on.
pub fn out_from<T: Drop>(front: &mut Vec<T>, back: &mut Vec<T>, at: usize, count: usize)
    requires { at + count ≤ vec_len front.old + vec_len back.old }
    ensures { front.new.items ++ reverse back.new.items ≡
        splice (front.old.items ++ reverse back.old.items) at (at + count) [] }
{
    for _ in 0..count {
        out_at(front, back, at);
    }
}
