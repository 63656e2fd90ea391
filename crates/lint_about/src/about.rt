//! What a reason is about.
ghost use Rattle.std.specs.Prelude.{◌≡◌, IfOk, take, drop, if◌then◌else◌};
ghost use Rattle.std.specs.List.{after_last, count_by};
ghost use Rattle.lint_about.specs.About as spec;

use crate::sought::place_of;
use lisp_read::{Tree, cut};
use plain_data::Memory;
use rtx_tree::{Name, Place};
use std::alloc::Global;
use text_words::behind_blanks;

/// As many bytes of a text are shown.
const MOST_SHOWN: usize = 60;

/// What a reason is about.
#[derive(Drop)]
pub struct About {
    /// Where it stands.
    pub place: Place,
    /// What is written there; empty where that is a tree as a whole.
    pub text: Name,
}

/// The front of a text, or the whole where it is no longer.
fn front(text: &[u8], count: usize) -> &[u8]
    ensures { result.now ≡ take count text.entry.now }
{
    if count < text.len() {
        &text[..count]
    } else {
        text
    }
}

/// What stands behind the front of a text; nothing where it is no longer.
fn behind(text: &[u8], count: usize) -> &[u8]
    ensures { result.now ≡ drop count text.entry.now }
{
    if count < text.len() {
        &text[count..]
    } else {
        &[]
    }
}

/// How many lines end in a text.
fn breaks_in(text: &[u8]) -> usize
    ensures { result ≡ count_by spec.is_break text.now }
{
    text.iter().filter(|byte| **byte == b'\n').count()
}

/// Where a line begins behind a byte, where it began there before it.
fn start_behind(byte: u8, next: usize, start: usize) -> usize
    ensures { result ≡ (if spec.is_break byte then next else start) }
{
    if byte == b'\n' { next } else { start }
}

/// The line that a text ends in.
#[tactic(auto, using(crate::proofs::LineLaws::start_next, crate::proofs::LineLaws::start_last))]
fn last_line(text: &[u8]) -> &[u8]
    ensures { result.now ≡ after_last spec.is_break text.entry.now }
{
    let mut start: usize = 0;
    for (at, byte) in text.iter().enumerate() {
        start = start_behind(*byte, at + 1, start);
    }
    &text[start..]
}

/// The line of a text that has the byte at an offset.
#[tactic(auto, unfolding(crate::specs::About::line_at))]
fn line_at(alloc: Global, text: &[u8], offset: usize) -> Result<Vec<u8>, Memory>
    ensures { IfOk result (λ line. line.items ≡ spec.line_at text.now offset) }
{
    let mut line = Vec::from_slice(alloc, last_line(front(text, offset)))?;
    line.extend_from_slice(cut(behind(text, offset), b'\n').0)?;
    Ok(line)
}

/// A count as it stands in a place.
fn counted(count: usize) -> u32
    ensures { result ≡ spec.counted count }
{
    u32::try_from(count).unwrap_or(u32::MAX)
}

/// So many lines below a quote, and behind so many blanks.
fn below(quote: Place, lines: usize, blanks: usize) -> Place
    ensures { result ≡ spec.below quote lines blanks }
{
    Place {
        line: counted((quote.line as usize).saturating_add(lines)),
        column: counted(blanks.saturating_add(1)),
        offset: quote.offset,
    }
}

impl About {
    /// A tree as a whole.
    pub fn whole(alloc: Global, tree: &Tree) -> About
        ensures { result ≡ spec.whole tree.now }
    {
        About {
            place: place_of(tree),
            text: Name::empty(alloc),
        }
    }

    /// What is written at a place.
    pub fn told(alloc: Global, place: Place, text: &[u8]) -> Result<About, Memory>
        ensures { IfOk result (λ about. about ≡ spec.told place text.now) }
    {
        Ok(About {
            place,
            text: Name::of(alloc, text)?,
        })
    }

    /// The front of what is written at a place.
    pub fn shown(alloc: Global, place: Place, text: &[u8]) -> Result<About, Memory>
        ensures { IfOk result (λ about. about ≡ spec.shown place text.now) }
    {
        About::told(alloc, place, front(text, MOST_SHOWN))
    }

    /// The line of a quoted text that has the byte at an offset, where it begins.
    #[tactic(auto, unfolding(crate::specs::About::line_of))]
    pub fn line_of(alloc: Global, quote: Place, text: &[u8], offset: usize) -> Result<About, Memory>
        ensures { IfOk result (λ about. about ≡ spec.line_of quote text.now offset) }
    {
        let lines = breaks_in(front(text, offset));
        let line = line_at(alloc, text, offset)?;
        let written = behind_blanks(&line);
        if lines == 0 {
            return About::shown(alloc, quote, written);
        }
        let place = below(quote, lines, line.len().saturating_sub(written.len()));
        About::shown(alloc, place, written)
    }
}
