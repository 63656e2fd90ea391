//! Verdicts.
ghost use Rattle.std.specs.Prelude.{◌<◌, ◌^◌, length, IfSome};
ghost use Rattle.equate.specs.Side.{side_length};
ghost use Rattle.equate.specs.Views.{side_of};

use crate::sides::{chain_in, lines_in, live_in, parts};
use case_text::Told;
use equate::{Side, Verdict, equate};
use rtx_tree::Function;
use std::alloc::Global;
use sym_term::TermRefusal;
use term_cases::show_term;
use term_text::{Item, print_item};
use text_words::number_in;

/// How many lines the side of a case has at most.
const MOST_LINES: usize = 100_000;

fn show_item(alloc: Global, item: Item, told: &mut Told) {
    let mut text = Vec::new(alloc);
    if print_item(item, &mut text).is_ok() {
        told.push(text.as_slice());
    } else {
        told.fail();
    }
}

/// Appends a verdict, as `differ register a0: LEFT / RIGHT`.
fn show_verdict(alloc: Global, verdict: &Verdict, told: &mut Told) {
    match verdict {
        Verdict::Same => told.text("same"),
        Verdict::Differ { item, left, right } => {
            told.text("differ ");
            show_item(alloc, *item, told);
            told.text(": ");
            show_term(alloc, left, told);
            told.text(" / ");
            show_term(alloc, right, told);
        }
        Verdict::Needs { item, term } => {
            told.text("needs ");
            show_item(alloc, *item, told);
            told.text(" ");
            show_term(alloc, term, told);
        }
        Verdict::Shape { index } => show_item(alloc, Item::Shape { index: *index }, told),
    }
}

/// Appends the verdict on instructions and what stands in their place, or the size of a term that
/// is too large.
fn tell_sides(alloc: Global, live: &str, before: &Function, after: &Side, told: &mut Told)
    requires before { length before.now.insns < 2 ^ 32 }
    requires after { side_length (side_of after.now) < 2 ^ 32 }
{
    let Some(live) = live_in(alloc, live) else {
        return told.fail();
    };
    match equate(alloc, before.insns.as_slice(), after, &live) {
        Ok(verdict) => show_verdict(alloc, &verdict, told),
        Err(TermRefusal::Size { size }) => {
            told.text("size ");
            told.show(size);
        }
        Err(TermRefusal::Memory) => told.fail(),
    }
}

/// The number of the function, which is 0 where none is given.
fn function_number(given: &[u8]) -> u32 {
    match number_in(given.trim_ascii()) {
        Some(number) => u32::try_from(number).unwrap_or(u32::MAX),
        None => 0,
    }
}

/// Lines of a function of a number, where they are not too many.
fn lines_side(alloc: Global, function: u32, text: &str) -> Option<Side>
    ensures { IfSome result (λ side. side_length (side_of side) < 2 ^ 32) }
{
    match lines_in(alloc, text) {
        Some(lines) if lines.len() < MOST_LINES => Some(Side::Lines { function, lines }),
        _ => None,
    }
}

/// Tells the verdict on instructions and the lines in their place. The number of their function may
/// be given.
pub fn tell_lines(alloc: Global, given: &[u8], input: &[u8], told: &mut Told) {
    if let Some((live, before, after)) = parts(input)
        && let Some(before) = chain_in(alloc, before)
        && let Some(after) = lines_side(alloc, function_number(given), after)
    {
        tell_sides(alloc, live, &before, &after, told);
    } else {
        told.fail();
    }
}

/// The instructions of a chain.
fn insns_side(alloc: Global, text: &str) -> Option<Side>
    ensures { IfSome result (λ side. side_length (side_of side) < 2 ^ 32) }
{
    match chain_in(alloc, text) {
        Some(Function { insns, .. }) => Some(Side::Insns { insns }),
        None => None,
    }
}

/// Tells the verdict on instructions and the instructions in their place.
pub fn tell_insns(alloc: Global, input: &[u8], told: &mut Told) {
    if let Some((live, before, after)) = parts(input)
        && let Some(before) = chain_in(alloc, before)
        && let Some(after) = insns_side(alloc, after)
    {
        tell_sides(alloc, live, &before, &after, told);
    } else {
        told.fail();
    }
}
