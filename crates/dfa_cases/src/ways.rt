//! The ways of expressions.
use case_text::Told;
use dfa_ways::{Way, ways_of};
use md_text::members_of;
use std::alloc::Global;

/// Appends the sets of a way, one for each cycle.
fn show_way(way: &Way, told: &mut Told) {
    let mut is_first = true;
    for units in way.as_slice() {
        told.text(if is_first { "" } else { "," });
        told.show(*units);
        is_first = false;
    }
}

/// Appends ways, with bars between.
pub fn show(ways: &[Way], told: &mut Told) {
    let mut is_first = true;
    for way in ways {
        told.text(if is_first { "" } else { "|" });
        show_way(way, told);
        is_first = false;
    }
}

/// Appends the ways of an expression over the units that are given, or that it has none.
pub fn tell(alloc: Global, given: &[u8], input: &[u8], told: &mut Told) {
    let Ok(units) = members_of(alloc, given) else {
        return told.fail();
    };
    match ways_of(alloc, units.as_slice(), input) {
        Ok(Some(ways)) => show(ways.as_slice(), told),
        Ok(None) => told.text("none"),
        Err(_) => told.fail(),
    }
}
