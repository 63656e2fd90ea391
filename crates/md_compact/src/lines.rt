//! The text of a block and its lines.
ghost use Rattle.std.specs.Prelude.{◌≡◌, IfOk, option_map};
ghost use Rattle.std.specs.Option.{option_copied};
ghost use Rattle.md_compact.specs.Lines as spec;

use plain_data::Memory;
use rtx_tree::Name;
use std::alloc::Global;
use text_words::{all_blank, behind_blanks, cut, print_text};

/// Whether a line is of blanks, or begins with `//` behind blanks.
fn says_nothing(line: &[u8]) -> bool
    ensures { result ≡ spec.says_nothing line.now }
{
    all_blank(line) || matches!(behind_blanks(line), [b'/', b'/', ..])
}

/// The text of some lines without those that carry nothing. The first is kept.
pub fn kept(alloc: Global, lines: &[Name]) -> Result<Vec<u8>, Memory>
    ensures { IfOk result (λ text. text.items ≡ spec.kept lines.now) }
{
    let mut text = Vec::new(alloc);
    let [first, more @ ..] = lines else {
        return Ok(text);
    };
    print_text(first.bytes(), &mut text)?;
    for line in more {
        if !says_nothing(line.bytes()) {
            text.push(b'\n')?;
            print_text(line.bytes(), &mut text)?;
        }
    }
    Ok(text)
}

/// Without the rest of a line, if it is of blanks.
pub fn past_blank(lines: &[Name]) -> &[Name]
    ensures { result.now ≡ spec.past_blank lines.entry.now }
{
    match lines {
        [first, more @ ..] if all_blank(first.bytes()) => more,
        _ => lines,
    }
}

/// Behind blanks and `[`, what stands before and behind the first `]`.
pub fn bracketed(text: &[u8]) -> Option<(&[u8], &[u8])>
    ensures { option_map (λ parts.
        (parts.0.now, parts.1.now)) result ≡ spec.bracketed text.entry.now }
{
    match behind_blanks(text) {
        [b'[', rest @ ..] => cut(rest, b']'),
        _ => None,
    }
}

/// What stands behind a word with which a text begins.
pub fn behind_word<'a>(word: &[u8], text: &'a [u8]) -> Option<&'a [u8]>
    ensures { option_copied result ≡ spec.behind_word word.now text.entry.now }
{
    text.strip_prefix(word)
}
