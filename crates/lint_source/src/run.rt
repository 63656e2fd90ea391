//! Which file has a form.
ghost use Rattle.std.specs.Prelude.{◌≡◌, ◌++◌, ◌∷◌, [], IfOk, IfErr, OnOk};
ghost use Rattle.md_source.specs.Answers.{Agrees};
ghost use Rattle.md_source.specs.Source.{Source};
ghost use Rattle.lint_source.specs.Sourced.{IsNoComparison};
ghost use Rattle.lint_source.specs.Runs.{AreRuns};
ghost use Rattle.lint_source.specs.machine.Steps.{AreRunsOf};

use crate::arranged::arrange;
use crate::part::{Part, parts_of};
use byte_edge::Files;
use lisp_read::Trees;
use plain_data::{Items, Memory};
use rtx_tree::Name;
use run_refusal::Refusal;
use std::alloc::Global;

/// Forms of one file that stand together.
#[derive(Drop)]
pub struct Run {
    /// The name of the file.
    pub file: Name,
    /// The index behind that of its last form.
    pub end: usize,
}

fn push_run(alloc: Global, file: &Name, end: usize, runs: &mut Items<Run>) -> Result<(), Memory>
    ensures { OnOk result (runs.new ≡ runs.old ++ record { file = file.now; end = end } ∷ []) }
{
    runs.push(Run {
        file: file.copy(alloc)?,
        end,
    })
}

/// The runs of several parts, which are those of all trees.
#[tactic(auto, using(crate::proofs::SourcedLaws::of_memory))]
fn runs_in(alloc: Global, parts: &[Part], trees: Trees) -> Result<Items<Run>, Refusal>
    ensures runs { IfOk result (AreRunsOf trees parts.now) }
    ensures refused { IfErr result IsNoComparison }
{
    let arranged = arrange(alloc, trees)?;
    let count = arranged.len();
    let mut runs = Items::new(alloc);
    let mut before: usize = 0;
    for part in parts {
        if part.trees > count - before {
            return Err(Refusal::ReadFault);
        }
        before += part.trees;
        let forms = arranged.forms_before(alloc, before)?;
        push_run(alloc, &part.file, forms, &mut runs)?;
    }
    if before < count {
        return Err(Refusal::ReadFault);
    }
    Ok(runs)
}

/// The runs of forms that the files of a description have, in order, by the trees that it comes to.
/// The files are read once more.
///
/// # Errors
///
/// `ReadFault` where they have other trees than before.
#[tactic(auto, using(crate::proofs::RunLaws::are_runs))]
pub fn runs_of<F: Files>(
    alloc: Global,
    files: &mut F,
    name: &[u8],
    trees: Trees,
) -> Result<Items<Run>, Refusal>
    ensures runs { (source : Source) → Agrees source (F.holds files.old) →
        IfOk result (AreRuns source name.now trees) }
    ensures refused { IfErr result IsNoComparison }
{
    let parts = parts_of(alloc, files, name)?;
    runs_in(alloc, parts.as_slice(), trees)
}
