//! The parts of inputs: the registers that are live behind, the instructions, and what stands in
//! their place.
ghost use Rattle.std.specs.Prelude.{◌<◌, ◌^◌, IfSome, length};

use code_cases::{function_in, halves, line_in};
use plain_data::Items;
use rtx_tree::{Function, Name, RegSet};
use rv_text::Line;
use std::alloc::Global;
use term_cases::register;

/// The three parts of an input between bars.
pub fn parts(input: &[u8]) -> Option<(&str, &str, &str)> {
    if let Some((live, rest)) = halves(input)
        && let Some((before, after)) = halves(rest.as_bytes())
    {
        Some((live.trim(), before.trim(), after.trim()))
    } else {
        None
    }
}

/// A text, or the empty one for `-`.
fn text_or_none(text: &str) -> &str {
    if text == "-" { "" } else { text }
}

/// The registers whose names a text has.
pub fn live_in(alloc: Global, text: &str) -> Option<RegSet> {
    let mut live = RegSet::new(alloc);
    for word in text_or_none(text).split_whitespace() {
        let number = register(word.as_bytes()).unwrap_or(u64::MAX);
        let Ok(reg) = u32::try_from(number) else {
            return None;
        };
        if live.insert(reg).is_err() {
            return None;
        }
    }
    Some(live)
}

/// The function whose chain a text is.
pub fn chain_in(alloc: Global, text: &str) -> Option<Function>
    ensures { IfSome result (λ f. length f.insns < 2 ^ 32) }
{
    function_in(alloc, text_or_none(text).as_bytes())
}

/// What stands for a text that is no line: it has no name.
fn no_line(alloc: Global) -> Line {
    Line {
        name: Name::empty(alloc),
        rd: 0,
        rs: 0,
        rt: 0,
        imm: 0,
        target: Name::empty(alloc),
    }
}

/// The lines of a text, between its semicolons.
pub fn lines_in(alloc: Global, text: &str) -> Option<Items<Line>> {
    let mut lines = Items::new(alloc);
    if text == "-" {
        return Some(lines);
    }
    for part in text.split(';') {
        let line = line_in(alloc, part.trim().as_bytes()).unwrap_or(no_line(alloc));
        if lines.push(line).is_err() {
            return None;
        }
    }
    Some(lines)
}
