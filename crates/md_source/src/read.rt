//! The text of one file, by itself.
ghost use Rattle.std.specs.Prelude.{◌≡◌, ◌≢◌, ◌≤◌, ◌+◌, ℕ, List, length, IfOk, IsTrue, ◌↔◌};
ghost use Rattle.byte_edge.specs.Causes.{Rose};
ghost use Rattle.rtx_tree.specs.Limit.{most_bytes};
ghost use Rattle.md_source.specs.Source.{Source, shipped_name};
ghost use Rattle.md_source.specs.Answers.{Agrees, Gives};
ghost use Rattle.md_source.specs.Faults.{FileFaults, AsksBy};
ghost use Rattle.md_source.specs.machine.Steps.{TextReads, FileReads, AsksFor, AsksName, Fetched, IsSyntax};

use crate::refusal::SourceRefusal;
use crate::trees::Gathered;
use byte_edge::{FetchFault, Files};
use lisp_read::{ReadRefusal, read_trees};
use rtx_tree::{MOST_BYTES, Name, Place};
use rv_target::shipped;
use std::alloc::Global;

/// The name of the shipped description.
pub const SHIPPED: &[u8] = b"rv64im";

/// The refusal of a file that is no text.
fn syntax(alloc: Global, file: &[u8], place: Place) -> SourceRefusal
    ensures { IsSyntax file.now place result }
{
    match Name::of(alloc, file) {
        Ok(file) => SourceRefusal::Syntax { file, place },
        Err(_) => SourceRefusal::Memory,
    }
}

/// The trees of a text, after so many bytes were read.
fn read_text(
    alloc: Global,
    name: &[u8],
    text: &[u8],
    used: usize,
) -> Result<Gathered, SourceRefusal>
    requires { used ≤ most_bytes }
    ensures reads { Gives result (TextReads name.now used text.now) }
    ensures bound { IfOk result (λ read. read.used ≤ most_bytes) }
    ensures no_fault { result ≢ Err SourceRefusal.ReadFault }
{
    if text.len() > MOST_BYTES - used {
        return Err(SourceRefusal::Text);
    }
    match read_trees(alloc, text) {
        Ok(trees) => Ok(Gathered {
            trees,
            used: used + text.len(),
        }),
        Err(ReadRefusal::Syntax { place }) => Err(syntax(alloc, name, place)),
        Err(ReadRefusal::Depth { .. }) => Err(SourceRefusal::Depth),
        Err(ReadRefusal::Memory) => Err(SourceRefusal::Memory),
    }
}

/// The bytes of a file, for which there is so much room.
fn fetch<F: Files>(
    alloc: Global,
    files: &mut F,
    name: &[u8],
    room: usize,
) -> Result<Vec<u8>, SourceRefusal>
    ensures fetched { Fetched (F.holds files.old name.now) room result }
    ensures asks { AsksName (F.asked files.old) (F.asked files.new) name.now result }
    ensures same { (n bytes : List ℕ) → F.holds files.new n bytes ↔ F.holds files.old n bytes }
    ensures fault { result ≡ Err SourceRefusal.ReadFault →
        Rose (F.fault_count files.old) (F.fault_count files.new) }
    ensures quiet { result ≢ Err SourceRefusal.ReadFault →
        F.fault_count files.new ≡ F.fault_count files.old }
{
    let mut bytes = Vec::new(alloc);
    match files.fetch(name, room, &mut bytes) {
        Ok(()) => Ok(bytes),
        Err(FetchFault::Failed) => Err(SourceRefusal::ReadFault),
        Err(FetchFault::TooLong) => Err(SourceRefusal::Text),
        Err(FetchFault::Memory) => Err(SourceRefusal::Memory),
    }
}

/// The trees of the file of a name, after so many bytes were read.
pub fn read_file<F: Files>(
    alloc: Global,
    files: &mut F,
    name: &[u8],
    used: usize,
) -> Result<Gathered, SourceRefusal>
    requires { used ≤ most_bytes }
    ensures reads { (source : Source) → Agrees source (F.holds files.old) →
        Gives result (FileReads source used name.now) }
    ensures bound { IfOk result (λ read. read.used ≤ most_bytes) }
    ensures asks { AsksFor (F.asked files.old) (F.asked files.new) name.now result }
    ensures same { (n bytes : List ℕ) → F.holds files.new n bytes ↔ F.holds files.old n bytes }
    ensures faulted { result ≡ Err SourceRefusal.ReadFault →
        (source : Source) → Agrees source (F.holds files.old) → (within : ℕ) →
        AsksBy (FileFaults source within used name.now) (F.asked files.old) (F.asked files.new) }
    ensures fault { result ≡ Err SourceRefusal.ReadFault →
        Rose (F.fault_count files.old) (F.fault_count files.new) }
    ensures quiet { result ≢ Err SourceRefusal.ReadFault →
        F.fault_count files.new ≡ F.fault_count files.old }
{
    if name == SHIPPED {
        read_text(alloc, name, shipped().as_bytes(), used)
    } else {
        let text = fetch(alloc, files, name, MOST_BYTES - used)?;
        read_text(alloc, name, &text, used)
    }
}
