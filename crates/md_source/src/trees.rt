//! The trees of a description, with its includes at their places.
ghost use Rattle.std.specs.Prelude.{◌≡◌, ◌≢◌, ◌≤◌, ◌+◌, ℕ, List, IfOk, OnOk, ◌↔◌, Result};
ghost use Rattle.byte_edge.specs.Causes.{Rose};
ghost use Rattle.lisp_read.specs.declared.tree.Tree.{Tree};
ghost use Rattle.rtx_tree.specs.Limit.{most_bytes, most_within};
ghost use Rattle.md_source.specs.Source.{Source, FileComes, DescriptionComes};
ghost use Rattle.md_source.specs.Asked.{AreNamed, GrewBy, IsKnown};
ghost use Rattle.md_source.specs.Answers.{Agrees, Gives};
ghost use Rattle.md_source.specs.Faults.{FileAsks, FileFaults, FaultsAt, AsksBy};
ghost use Rattle.md_source.specs.declared.refusal.SourceRefusal.{SourceRefusal};

use crate::include::{include_some, included_name};
use crate::read::read_file;
use crate::refusal::SourceRefusal;
use byte_edge::Files;
use lisp_read::Trees;
use plain_data::Items;
use rtx_tree::MOST_WITHIN;
use std::alloc::Global;

/// Trees, and how many bytes were read by then.
#[derive(Drop)]
pub struct Gathered {
    pub trees: Trees,
    pub used: usize,
}

/// The trees of the file of a name, as so many files within each other, after so many bytes were
/// read. Where none of them includes a file, they are those that were read, and not copied.
fn gather_from<F: Files>(
    alloc: Global,
    files: &mut F,
    name: &[u8],
    within: usize,
    used: usize,
) -> Result<Gathered, SourceRefusal>
    requires within { within ≤ most_within }
    requires used { used ≤ most_bytes }
    ensures gives { (source : Source) → Agrees source (F.holds files.old) →
        Gives result (FileComes source within used name.now) }
    ensures bound { IfOk result (λ gathered. gathered.used ≤ most_bytes) }
    ensures asked { (source : Source) → Agrees source (F.holds files.old) →
        GrewBy (AreNamed source name.now) (F.asked files.old) (F.asked files.new) }
    ensures same { (n bytes : List ℕ) → F.holds files.new n bytes ↔ F.holds files.old n bytes }
    ensures asks { (source : Source) → Agrees source (F.holds files.old) →
        OnOk result (AsksBy (FileAsks source name.now) (F.asked files.old) (F.asked files.new)) }
    ensures faulted { result ≡ Err SourceRefusal.ReadFault →
        (source : Source) → Agrees source (F.holds files.old) →
        AsksBy (FileFaults source within used name.now) (F.asked files.old) (F.asked files.new) }
    ensures fault { result ≡ Err SourceRefusal.ReadFault →
        Rose (F.fault_count files.old) (F.fault_count files.new) }
    ensures quiet { result ≢ Err SourceRefusal.ReadFault →
        F.fault_count files.new ≡ F.fault_count files.old }
{
    let text = read_file(alloc, files, name, used)?;
    if !include_some(text.trees.as_slice()) {
        return Ok(text);
    }
    let mut trees = Items::new(alloc);
    let mut used = text.used;
    for tree in text.trees.into_vec() {
        match included_name(&tree) {
            None => {
                trees.push(tree)?;
            }
            Some(file) => {
                if within >= MOST_WITHIN {
                    return Err(SourceRefusal::Include);
                }
                let file = gather_from(alloc, files, file.bytes(), within + 1, used)?;
                trees = trees.append(file.trees)?;
                used = file.used;
            }
        }
    }
    Ok(Gathered { trees, used })
}

/// The trees of the description of a name, in order. A tree that is a list of the word `include`
/// and one string gives its place to the trees of the file with that name, and so on within that.
/// The name `rv64im` is the shipped description, and files are not asked for it.
///
/// # Errors
///
/// `Text` where the description has more than 16,777,216 bytes with all its includes. `Syntax` and
/// `Depth` where a file is not read as trees, before anything that it includes. `Include` where a
/// file would be the 17th within each other; it is not asked for. `ReadFault` where the files
/// failed. `Memory` where memory ran out.
pub fn gather<F: Files>(alloc: Global, files: &mut F, name: &[u8]) -> Result<Trees, SourceRefusal>
    // The answer is what the description comes to, by all that is known of the files, unless memory
    // ran out or they failed.
    ensures gives { (source : Source) → Agrees source (F.holds files.old) →
        Gives result (DescriptionComes source name.now) }

    // By files of which all that the description is made of is known, it comes to one answer.
    ensures one { (source : Source) → IsKnown source name.now →
        (a b : Result (List Tree) SourceRefusal) →
        DescriptionComes source name.now a → DescriptionComes source name.now b → a ≡ b }

    // Files are asked only for what is named, and stay as they are.
    ensures asked { (source : Source) → Agrees source (F.holds files.old) →
        GrewBy (AreNamed source name.now) (F.asked files.old) (F.asked files.new) }
    ensures same { (n bytes : List ℕ) → F.holds files.new n bytes ↔ F.holds files.old n bytes }

    // Faults are counted. The names asked for end at the one that failed, and nothing that is read
    // before it is refused.
    ensures faulted { result ≡ Err SourceRefusal.ReadFault →
        (source : Source) → Agrees source (F.holds files.old) →
        AsksBy (FaultsAt source name.now) (F.asked files.old) (F.asked files.new) }
    ensures fault { result ≡ Err SourceRefusal.ReadFault →
        Rose (F.fault_count files.old) (F.fault_count files.new) }
    ensures quiet { result ≢ Err SourceRefusal.ReadFault →
        F.fault_count files.new ≡ F.fault_count files.old }
{
    let gathered = gather_from(alloc, files, name, 1, 0)?;
    Ok(gathered.trees)
}
