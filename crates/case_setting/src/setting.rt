//! What the parts of a case say.
ghost use Rattle.std.specs.Prelude.{◌<◌, IfOk};

use crate::fault::Fault;
use case_text::{Part, Told, push_bytes, push_word};
use std::alloc::Global;

/// How many bytes a write takes at most where no part says it.
const TAKES: usize = 4096;

/// The parts of a case, and those that hold for all cases of its file.
#[derive(Clone, Copy)]
pub struct Setting<'s, 't> {
    pub own: &'s [Part<'t>],
    pub shared: &'s [Part<'t>],
}

/// What stands behind the head of the first of some parts with this head.
fn value_among<'a>(parts: &[Part<'a>], head: &str) -> Option<&'a str> {
    for part in parts {
        if let Some(text) = part.head.strip_prefix(head) {
            return Some(text);
        }
    }
    None
}

/// What stands behind the head of the first part with this head, a case's own parts before the
/// shared ones.
fn value_of<'a>(setting: Setting<'_, 'a>, head: &str) -> Option<&'a str> {
    match value_among(setting.own, head) {
        Some(text) => Some(text),
        None => value_among(setting.shared, head),
    }
}

/// The bytes of a text, of which this tells whether each backquote begins an escape.
fn read(is_read: bool, bytes: Told) -> Result<Vec<u8>, Fault> {
    if !is_read {
        return Err(Fault::Unread("a backquote that begins no escape"));
    }
    match bytes.whole() {
        Some(bytes) => Ok(bytes),
        None => Err(Fault::Memory),
    }
}

/// The bytes of a part's lines.
pub fn part_bytes(alloc: Global, part: &Part) -> Result<Vec<u8>, Fault> {
    let mut bytes = Told::new(alloc);
    let is_read = push_bytes(&part.lines, &mut bytes);
    read(is_read, bytes)
}

/// The bytes of the first part with this head, and none where there is no such part.
pub fn bytes_of(alloc: Global, setting: Setting, head: &str) -> Result<Vec<u8>, Fault> {
    for part in setting.own.iter().chain(setting.shared) {
        if part.head == head {
            return part_bytes(alloc, part);
        }
    }
    Ok(Vec::new(alloc))
}

/// The wanted status.
pub fn status_of(setting: Setting) -> Result<u8, Fault> {
    let Some(text) = value_of(setting, "-- status ") else {
        return Ok(0);
    };
    let Ok(status) = text.parse::<u8>() else {
        return Err(Fault::Unread("no status"));
    };
    Ok(status)
}

/// How many bytes a write takes at most.
pub fn takes_of(setting: Setting) -> Result<usize, Fault>
    ensures { IfOk result (λ count. 0 < count) }
{
    let Some(text) = value_of(setting, "-- takes ") else {
        return Ok(TAKES);
    };
    match text.parse::<usize>() {
        Ok(count) if count > 0 => Ok(count),
        _ => Err(Fault::Unread("no count of bytes")),
    }
}

/// The numbers of the calls that are to fail, by the head of the parts that say so.
pub fn failing(alloc: Global, setting: Setting, head: &str) -> Result<Vec<u64>, Fault> {
    let mut numbers = Vec::new(alloc);
    for part in setting.own.iter().chain(setting.shared) {
        if let Some(text) = part.head.strip_prefix(head) {
            let Ok(number) = text.parse::<u64>() else {
                return Err(Fault::Unread("no number of a call"));
            };
            numbers.push(number)?;
        }
    }
    Ok(numbers)
}

/// The bytes of a word, of which `""` is the empty one.
fn word_bytes(alloc: Global, text: &str) -> Result<Vec<u8>, Fault> {
    let mut bytes = Told::new(alloc);
    let is_read = text == "\"\"" || push_word(text, &mut bytes);
    read(is_read, bytes)
}

/// The words behind `$`.
pub fn words_of(alloc: Global, head: &str) -> Result<Vec<Vec<u8>>, Fault> {
    let mut words = Vec::new(alloc);
    if let Some(text) = head.strip_prefix("$ ") {
        for word in text.split(' ') {
            words.push(word_bytes(alloc, word)?)?;
        }
    }
    Ok(words)
}

/// Whether a part is the words of a run.
pub fn is_command(part: &Part) -> bool {
    part.head.starts_with("$")
}

/// Whether a part has lines below its head that count.
fn has_lines(head: &str) -> bool {
    head == "-- input" || head == "-- output" || head == "-- errors" || head.starts_with("-- file ")
}

/// Whether a head is that of a part without lines.
fn is_bare(head: &str) -> bool {
    head.starts_with("$")
        || head.starts_with("-- status ")
        || head.starts_with("-- takes ")
        || head.starts_with("-- fails read ")
        || head.starts_with("-- fails write ")
        || head.starts_with("-- fails fetch ")
        || head.starts_with("-- fails tell ")
}

/// Whether a part is one that a case may have.
fn is_known(part: &Part) -> bool {
    has_lines(part.head) || is_bare(part.head) && part.lines.iter().all(|line| line.is_empty())
}

/// Refuses a case that has a part which none may have.
pub fn check_parts(parts: &[Part]) -> Result<(), Fault> {
    if parts.iter().all(is_known) {
        Ok(())
    } else {
        Err(Fault::Unread("a part that no case has"))
    }
}
