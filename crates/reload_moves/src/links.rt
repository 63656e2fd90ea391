//! What shares a register or a base.
ghost use Rattle.std.specs.Prelude.{◌≡◌, map, IfOk};
ghost use Rattle.std.specs.Option.{option_copied};
ghost use Rattle.reload_moves.specs.Moved as spec;

use crate::fitting::{Digit, Fitting};
use crate::part::Part;
use crate::rows::{is_marked, is_tied, moved_in};
use plain_data::{Items, Memory};
use std::alloc::Global;

fn first_of(digits: &[Digit]) -> Option<usize>
    ensures { result ≡ spec.first_of digits.now }
{
    match digits {
        [first, ..] => Some(first.place),
        [] => None,
    }
}

fn is_kept(moved: &[bool], digit: &Digit) -> bool
    ensures { result ≡ spec.is_kept moved.now digit.now }
{
    digit.same && !is_marked(moved, digit.place)
}

fn first_kept<'a>(moved: &[bool], digits: &'a [Digit]) -> Option<&'a Digit>
    ensures { option_copied result ≡ spec.first_kept moved.now digits.now }
{
    digits.iter().find(|digit| is_kept(moved, digit))
}

fn kept_of(moved: &[bool], digits: &[Digit]) -> Option<usize>
    ensures { result ≡ spec.kept_of moved.now digits.now }
{
    match first_kept(moved, digits) {
        Some(digit) => Some(digit.place),
        None => None,
    }
}

fn named_by(moved: &[bool], f: &Fitting) -> Option<usize>
    ensures { result ≡ spec.named_by moved.now f.now }
{
    if is_marked(moved, f.place) {
        first_of(f.digits.as_slice())
    } else {
        kept_of(moved, f.digits.as_slice())
    }
}

fn link_of(moved: &[bool], f: &Fitting) -> usize
    ensures { result ≡ spec.link_of moved.now f.now }
{
    if is_tied(f.standing) {
        named_by(moved, f).unwrap_or(f.place)
    } else {
        f.place
    }
}

fn link(fits: &[Fitting], moved: &[bool], place: usize) -> usize
    ensures { result ≡ spec.link fits.now moved.now place }
{
    match fits.get(place) {
        Some(f) => link_of(moved, f),
        None => place,
    }
}

fn end_of(fits: &[Fitting], moved: &[bool], place: usize) -> usize
    ensures { result ≡ spec.end_of (spec.link fits.now moved.now) fits.now place }
{
    let mut at = place;
    for f in fits {
        at = link(fits, moved, at);
    }
    at
}

fn least_on(fits: &[Fitting], moved: &[bool], place: usize) -> usize
    ensures { result ≡ spec.least_on (spec.link fits.now moved.now) fits.now place place }
{
    let mut at = place;
    let mut least = place;
    for f in fits {
        at = link(fits, moved, at);
        least = least.min(at);
    }
    least
}

/// The operand that stands for those which share with the one at a place.
fn holder_of(fits: &[Fitting], moved: &[bool], place: usize) -> usize
    ensures { result ≡ spec.holder_of fits.now moved.now place }
{
    least_on(fits, moved, end_of(fits, moved, place))
}

fn part_of(fits: &[Fitting], moved: &[bool], f: &Fitting) -> Part
    ensures { result ≡ spec.part_of fits.now moved.now f.now }
{
    Part {
        place: f.place,
        holder: holder_of(fits, moved, f.place),
        is_moved: is_marked(moved, f.place),
        needs: f.needs,
    }
}

fn parts_in(alloc: Global, fits: &[Fitting], moved: &[bool]) -> Result<Items<Part>, Memory>
    ensures { IfOk result (λ parts. parts ≡ spec.parts_in fits.now moved.now) }
{
    let mut parts = Items::new(alloc);
    for f in fits {
        parts.push(part_of(fits, moved, f))?;
    }
    Ok(parts)
}

/// The operands, once it is settled what is moved.
pub fn parts_of(alloc: Global, fits: &[Fitting]) -> Result<Items<Part>, Memory>
    ensures { IfOk result (λ parts. parts ≡ spec.parts_of fits.now) }
{
    let moved = moved_in(alloc, fits)?;
    parts_in(alloc, fits, moved.as_slice())
}
