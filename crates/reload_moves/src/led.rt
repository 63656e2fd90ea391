//! Where digits lead.
ghost use Rattle.std.specs.Prelude.{◌≡◌, ◌==◌, map, IfOk};
ghost use Rattle.reload_moves.specs.Moved as spec;

use crate::fitting::{Digit, Fitting};
use crate::rows::{Row, is_marked};
use plain_data::{Items, Memory};
use std::alloc::Global;

fn leads_to(digits: &[Digit], place: usize) -> bool
    ensures { result ≡ spec.leads_to digits.now place }
{
    digits.iter().any(|digit| digit.place == place)
}

fn leads(row: &[bool], place: usize, g: &Fitting) -> bool
    ensures { result ≡ spec.leads row.now place g.now }
{
    is_marked(row, g.place) && leads_to(g.digits.as_slice(), place)
}

fn one_leads(fits: &[Fitting], row: &[bool], place: usize) -> bool
    ensures { result ≡ spec.one_leads fits.now row.now place }
{
    fits.iter().any(|g| leads(row, place, g))
}

fn is_led_to(fits: &[Fitting], row: &[bool], f: &Fitting) -> bool
    ensures { result ≡ spec.is_led_to fits.now row.now f.now }
{
    is_marked(row, f.place) || one_leads(fits, row, f.place)
}

fn lead(alloc: Global, fits: &[Fitting], row: &[bool]) -> Result<Row, Memory>
    ensures { IfOk result (λ next. next ≡ spec.lead fits.now row.now) }
{
    let mut next = Items::new(alloc);
    for f in fits {
        next.push(is_led_to(fits, row, f))?;
    }
    Ok(next)
}

fn only(alloc: Global, fits: &[Fitting], place: usize) -> Result<Row, Memory>
    ensures { IfOk result (λ row. row ≡ spec.only fits.now place) }
{
    let mut row = Items::new(alloc);
    for f in fits {
        row.push(f.place == place)?;
    }
    Ok(row)
}

/// The operand at a place, and those to which its digits lead.
pub fn led_from(alloc: Global, fits: &[Fitting], place: usize) -> Result<Row, Memory>
    ensures { IfOk result (λ row. row ≡ spec.led_from fits.now place) }
{
    let mut row = only(alloc, fits, place)?;
    for f in fits {
        row = lead(alloc, fits, row.as_slice())?;
    }
    Ok(row)
}
