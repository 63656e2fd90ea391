//! The trees of a description by their files.
ghost use Rattle.std.specs.Prelude.{◌≡◌, ◌++◌, ℕ, List, [], ◌↔◌, IfOk, IfErr, OnOk, replicate};
ghost use Rattle.std.specs.Option.{option_copied};
ghost use Rattle.lisp_read.specs.Reading.{ReadsAs, Trees as trees_read};
ghost use Rattle.md_source.specs.Answers.{Agrees};
ghost use Rattle.md_source.specs.Include as include;
ghost use Rattle.md_source.specs.Source.{Source};
ghost use Rattle.lint_source.specs.Sourced.{IsNoComparison};
ghost use Rattle.lint_source.specs.machine.Steps.{FileReads, Stand, files_of};

use byte_edge::{FetchFault, Files};
use lisp_read::{ReadRefusal, Tree, Trees, is_word, items, read_trees, string};
use md_source::SHIPPED;
use plain_data::{Items, Memory};
use rtx_tree::{MOST_BYTES, MOST_WITHIN, Name};
use run_refusal::Refusal;
use rv_target::shipped;
use std::alloc::Global;

/// Trees of one file that stand together.
#[derive(Drop)]
pub struct Part {
    /// The name of the file.
    pub file: Name,
    /// How many trees there are.
    pub trees: usize,
}

/// The trees of a text that was read before.
fn read(alloc: Global, text: &[u8]) -> Result<Trees, Refusal>
    ensures reads { IfOk result (λ trees. ReadsAs text.now (trees_read trees)) }
    ensures refused { IfErr result IsNoComparison }
{
    if text.len() > MOST_BYTES {
        return Err(Refusal::ReadFault);
    }
    match read_trees(alloc, text) {
        Ok(trees) => Ok(trees),
        Err(ReadRefusal::Memory) => Err(Refusal::Memory),
        Err(_) => Err(Refusal::ReadFault),
    }
}

/// The text of a file.
fn fetched<F: Files>(alloc: Global, files: &mut F, name: &[u8]) -> Result<Vec<u8>, Refusal>
    ensures holds { IfOk result (λ text. (bytes : List ℕ) →
        F.holds files.old name.now bytes → text.items ≡ bytes) }
    ensures same { (n bytes : List ℕ) → F.holds files.new n bytes ↔ F.holds files.old n bytes }
    ensures refused { IfErr result IsNoComparison }
{
    let mut text = Vec::new(alloc);
    match files.fetch(name, MOST_BYTES, &mut text) {
        Ok(()) => Ok(text),
        Err(FetchFault::Memory) => Err(Refusal::Memory),
        Err(_) => Err(Refusal::ReadFault),
    }
}

/// The trees of a file, by itself.
fn trees_in<F: Files>(alloc: Global, files: &mut F, name: &[u8]) -> Result<Trees, Refusal>
    ensures reads { (source : Source) → Agrees source (F.holds files.old) →
        IfOk result (FileReads source name.now) }
    ensures same { (n bytes : List ℕ) → F.holds files.new n bytes ↔ F.holds files.old n bytes }
    ensures refused { IfErr result IsNoComparison }
{
    if name == SHIPPED {
        read(alloc, shipped().as_bytes())
    } else {
        let text = fetched(alloc, files, name)?;
        read(alloc, &text)
    }
}

/// The name of the file that a tree includes.
fn included(tree: &Tree) -> Option<&Name>
    ensures { option_copied result ≡ include.included_name tree.now }
{
    match items(tree) {
        [word, name] if is_word(word, b"include") => string(name),
        _ => None,
    }
}

#[tactic(auto, using(crate::proofs::StandLaws::one_more))]
fn push_part(
    alloc: Global,
    name: &[u8],
    trees: usize,
    parts: &mut Items<Part>,
) -> Result<(), Memory>
    ensures { OnOk result (files_of parts.new ≡ files_of parts.old ++ replicate trees name.now) }
{
    parts.push(Part {
        file: Name::of(alloc, name)?,
        trees,
    })
}

/// Appends the parts of a file, with those of what it includes at their places, so many files
/// within each other.
#[tactic(auto, using(crate::proofs::SourcedLaws::of_memory))]
fn push_parts<F: Files>(
    alloc: Global,
    files: &mut F,
    name: &[u8],
    room: usize,
    parts: &mut Items<Part>,
) -> Result<(), Refusal>
    ensures stand { (source : Source) → Agrees source (F.holds files.old) →
        OnOk result (Stand source name.now parts.old parts.new) }
    ensures same { (n bytes : List ℕ) → F.holds files.new n bytes ↔ F.holds files.old n bytes }
    ensures refused { IfErr result IsNoComparison }
{
    let trees = trees_in(alloc, files, name)?;
    let mut count: usize = 0;
    for tree in trees.as_slice() {
        match included(tree) {
            None => count += 1,
            Some(file) => {
                if room == 0 {
                    return Err(Refusal::ReadFault);
                }
                push_part(alloc, name, count, parts)?;
                push_parts(alloc, files, file.bytes(), room - 1, parts)?;
                count = 0;
            }
        }
    }
    push_part(alloc, name, count, parts)?;
    Ok(())
}

/// The parts of the description of a name, in order.
pub fn parts_of<F: Files>(alloc: Global, files: &mut F, name: &[u8]) -> Result<Items<Part>, Refusal>
    ensures stand { (source : Source) → Agrees source (F.holds files.old) →
        IfOk result (Stand source name.now []) }
    ensures refused { IfErr result IsNoComparison }
{
    let mut parts = Items::new(alloc);
    push_parts(alloc, files, name, MOST_WITHIN - 1, &mut parts)?;
    Ok(parts)
}
