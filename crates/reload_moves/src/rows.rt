//! What is moved.
ghost use Rattle.std.specs.Prelude.{◌≡◌, map, IfOk};
ghost use Rattle.reload_moves.specs.Moved as spec;

use crate::fitting::{Digit, Fitting, Standing};
use plain_data::{Items, Memory};
use std::alloc::Global;

/// A mark for each operand.
pub type Row = Items<bool>;

/// Whether the operand at a place is marked.
pub fn is_marked(row: &[bool], place: usize) -> bool
    ensures { result ≡ spec.is_marked row.now place }
{
    row.get(place).copied().unwrap_or(false)
}

fn moves(standing: Standing) -> bool
    ensures { result ≡ spec.moves standing }
{
    matches!(standing, Standing::Moves)
}

/// Whether the digits of an operand decide how it stands.
pub fn is_tied(standing: Standing) -> bool
    ensures { result ≡ spec.is_tied standing }
{
    matches!(standing, Standing::Tied)
}

fn is_other(moved: &[bool], digit: &Digit) -> bool
    ensures { result ≡ spec.is_other moved.now digit.now }
{
    !digit.same || is_marked(moved, digit.place)
}

fn are_other(moved: &[bool], digits: &[Digit]) -> bool
    ensures { result ≡ spec.are_other moved.now digits.now }
{
    digits.iter().all(|digit| is_other(moved, digit))
}

fn is_torn(moved: &[bool], f: &Fitting) -> bool
    ensures { result ≡ spec.is_torn moved.now f.now }
{
    is_tied(f.standing) && (is_marked(moved, f.place) || are_other(moved, f.digits.as_slice()))
}

fn names_first(place: usize, digits: &[Digit]) -> bool
    ensures { result ≡ spec.names_first place digits.now }
{
    match digits {
        [first, ..] => first.place == place,
        [] => false,
    }
}

fn draws(moved: &[bool], place: usize, f: &Fitting) -> bool
    ensures { result ≡ spec.draws moved.now place f.now }
{
    is_torn(moved, f) && names_first(place, f.digits.as_slice())
}

fn is_drawn(fits: &[Fitting], moved: &[bool], place: usize) -> bool
    ensures { result ≡ spec.is_drawn fits.now moved.now place }
{
    fits.iter().any(|f| draws(moved, place, f))
}

fn is_moved_next(fits: &[Fitting], moved: &[bool], f: &Fitting) -> bool
    ensures { result ≡ spec.is_moved_next fits.now moved.now f.now }
{
    is_marked(moved, f.place) || is_torn(moved, f) || is_drawn(fits, moved, f.place)
}

fn round(alloc: Global, fits: &[Fitting], moved: &[bool]) -> Result<Row, Memory>
    ensures { IfOk result (λ row. row ≡ spec.round fits.now moved.now) }
{
    let mut row = Items::new(alloc);
    for f in fits {
        row.push(is_moved_next(fits, moved, f))?;
    }
    Ok(row)
}

fn those_that_move(alloc: Global, fits: &[Fitting]) -> Result<Row, Memory>
    ensures { IfOk result (λ row. row ≡ spec.those_that_move fits.now) }
{
    let mut row = Items::new(alloc);
    for f in fits {
        row.push(moves(f.standing))?;
    }
    Ok(row)
}

/// The operands that are moved.
pub fn moved_in(alloc: Global, fits: &[Fitting]) -> Result<Row, Memory>
    ensures { IfOk result (λ row. row ≡ spec.moved_in fits.now) }
{
    let mut row = those_that_move(alloc, fits)?;
    for f in fits {
        row = round(alloc, fits, row.as_slice())?;
    }
    Ok(row)
}
