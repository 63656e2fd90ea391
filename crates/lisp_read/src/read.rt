//! Reads a text as trees.
ghost use Rattle.std.specs.Prelude.{◌≡◌, ◌+◌, ◌<◌, ◌≤◌, ◌^◌, length};
ghost use Rattle.lisp_read.specs.Places.{advance};
ghost use Rattle.lisp_read.specs.Reading.{Reading, ReadsAs};
ghost use Rattle.lisp_read.specs.Answers.{Gives};
ghost use Rattle.lisp_read.specs.machine.Runs.{finish, Reads, Ends};
ghost use Rattle.lisp_read.specs.machine.Reader.{state_of};

use crate::mode::Mode;
use crate::reader::{Reader, StepError};
use crate::tree::{Tree, Trees};
use plain_data::Memory;
use rtx_tree::{Name, Place};
use std::alloc::Global;
use thiserror::Error;

/// Why bytes were not read as trees.
#[derive(Clone, Copy, Debug, Error)]
pub enum ReadRefusal {
    /// The bytes are no text. The place ends the longest prefix of them that begins a text.
    #[error("syntax")]
    Syntax { place: Place },
    /// At the place stands the first byte that opens a list or a vector within 200 that are open.
    #[error("too deep")]
    Depth { place: Place },
    /// Memory ran out.
    #[error("out of memory")]
    Memory,
}

impl From<Memory> for ReadRefusal {
    ghost use Rattle.std.specs.Prelude.{◌≡◌};
    ghost use Rattle.lisp_read.specs.declared.read.ReadRefusal.TheVariants as refusal;

    ghost from_gives = { λ _ e. e ≡ refusal.Memory };

    fn from(_e: Memory) -> ReadRefusal {
        ReadRefusal::Memory
    }
}

/// The place behind a byte that stands here.
fn advance(here: Place, byte: u8) -> Place
    requires line { here.line + 1 < 2 ^ 32 }
    requires column { 0 < here.column }
    requires column_fits { here.column + 1 < 2 ^ 32 }
    requires offset { here.offset + 1 < 2 ^ 64 }
    ensures value { result ≡ advance here byte }
    ensures line { result.line ≤ here.line + 1 }
    ensures column { (0 < result.column) × (result.column ≤ here.column + 1) }
    ensures offset { result.offset ≡ here.offset + 1 }
{
    if byte == b'\n' {
        Place {
            line: here.line + 1,
            column: 1,
            offset: here.offset + 1,
        }
    } else {
        Place {
            line: here.line,
            column: here.column + 1,
            offset: here.offset + 1,
        }
    }
}

/// The trees of a text that ends here.
fn finished(alloc: Global, reader: Reader, here: Place) -> Result<Trees, ReadRefusal>
    ensures { Ends here (finish (state_of reader)) result }
{
    let Reader {
        stack,
        mut items,
        mode,
    } = reader;
    if stack.len() > 0 {
        return Err(ReadRefusal::Syntax { place: here });
    }
    match mode {
        Mode::Between | Mode::Line => {}
        Mode::Slash { place } => {
            let text = Name::of(alloc, b"/")?;
            items.push(Tree::Atom { place, text })?;
        }
        Mode::Atom { place, text } => items.push(Tree::Atom {
            place,
            text: Name::from_vec(text.into_vec()),
        })?,
        _ => return Err(ReadRefusal::Syntax { place: here }),
    }
    Ok(items)
}

/// Reads the bytes to their end.
fn read_all(alloc: Global, bytes: &[u8]) -> Result<Trees, ReadRefusal>
    requires { length bytes.now < 4294967295 }
    ensures { Reads bytes.now result }
{
    let mut reader = Reader::new(alloc);
    let mut here = Place {
        line: 1,
        column: 1,
        offset: 0,
    };
    for b in bytes {
        match reader.step(alloc, here, *b) {
            Ok(()) => {}
            Err(StepError::Syntax) => return Err(ReadRefusal::Syntax { place: here }),
            Err(StepError::Depth) => return Err(ReadRefusal::Depth { place: here }),
            Err(StepError::Memory) => return Err(ReadRefusal::Memory),
        }
        here = advance(here, *b);
    }
    finished(alloc, reader, here)
}

/// Reads a text as the trees that it is a text of, each with its place.
///
/// # Errors
///
/// `Syntax` where the bytes are no text, with the place that ends the longest prefix of them that
/// begins one. `Depth` where, before any such place, a byte opens a list or a vector within 200
/// that are still open, with the place of the first such byte. `Memory` where memory ran out.
pub fn read_trees(alloc: Global, bytes: &[u8]) -> Result<Trees, ReadRefusal>
    requires { length bytes.now < 4294967295 }
    // The answer is the reading of the bytes, unless memory ran out.
    ensures reads { Gives bytes.now result }
    // Bytes have one reading at most.
    ensures one { (a b : Reading) → ReadsAs bytes.now a → ReadsAs bytes.now b → a ≡ b }
{
    read_all(alloc, bytes)
}
