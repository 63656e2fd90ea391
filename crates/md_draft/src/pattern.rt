//! The patterns of forms.
ghost use Rattle.std.specs.Prelude.{◌≡◌, IfOk};
ghost use Rattle.std.specs.List.{count_by, list_any};
ghost use Rattle.std.specs.Option.{option_copied};
ghost use Rattle.md_draft.specs.Patterns as spec;

use crate::head::FormHead;
use lisp_read::{Tree, atom, head_words, items, vector};
use md_pattern::{Judged, Patterns, Reason, no_patterns, patterns_of};
use name_places::Constants;
use plain_data::{Items, Memory};
use rtx_tree::{Code, Kids, Mode, Rtx};
use std::alloc::Global;

/// The greatest number of instructions of a window.
const MOST_WINDOW: usize = 16;

/// Several elements of one instruction are a `parallel`.
fn as_one(alloc: Global, trees: Kids) -> Result<Kids, Memory>
    ensures { IfOk result (λ one. one ≡ spec.as_one trees) }
{
    if trees.len() < 2 {
        return Ok(trees);
    }
    let mut one = Items::new(alloc);
    one.push(Rtx::of_kids(alloc, Code::Parallel, Mode::Void, trees))?;
    Ok(one)
}

fn one_instruction(alloc: Global, patterns: Patterns) -> Result<Patterns, Memory>
    ensures { IfOk result (λ one. one ≡ spec.one_instruction patterns) }
{
    let Patterns { trees, texts } = patterns;
    let trees = as_one(alloc, trees)?;
    Ok(Patterns { trees, texts })
}

/// The pattern of one instruction.
#[tactic(auto, unfolding(crate::specs::Patterns::insn_patterns))]
fn insn_patterns(
    alloc: Global,
    constants: &Constants,
    tree: &Tree,
) -> Result<Judged<Patterns>, Memory>
    ensures { IfOk result (λ patterns. patterns ≡ spec.insn_patterns constants.now tree.now) }
{
    if vector(tree).is_empty() {
        return Ok(Err(Reason::Parts));
    }
    match patterns_of(alloc, tree, constants)? {
        Ok(patterns) => Ok(Ok(one_instruction(alloc, patterns)?)),
        Err(reason) => Ok(Err(reason)),
    }
}

/// The code at the head of a list.
fn code_in(tree: &Tree) -> Option<Code>
    ensures { result ≡ spec.code_in tree.now }
{
    match items(tree) {
        [head, ..] => head_words(atom(head)?.bytes()).0,
        [] => None,
    }
}

/// Whether an element asks for a scratch register, and is no instruction.
fn is_scratch(tree: &Tree) -> bool
    ensures { result ≡ spec.is_scratch tree.now }
{
    matches!(code_in(tree), Some(Code::MatchScratch))
}

fn is_dup(tree: &Tree) -> bool
    ensures { result ≡ spec.is_dup tree.now }
{
    matches!(code_in(tree), Some(Code::MatchDup))
}

/// How many of some elements are instructions.
fn instructions(trees: &[Tree]) -> usize
    ensures { result ≡ spec.instructions trees.now }
{
    let mut count = 0;
    for tree in trees {
        if !is_scratch(tree) {
            count += 1;
        }
    }
    count
}

fn fits_window(count: usize) -> bool
    ensures { result ≡ spec.fits_window count }
{
    count > 0 && count <= MOST_WINDOW
}

fn has_dup(trees: &[Tree]) -> bool
    ensures { result ≡ list_any spec.is_dup trees.now }
{
    trees.iter().any(|tree| is_dup(tree))
}

fn is_window(trees: &[Tree]) -> bool
    ensures { result ≡ spec.is_window trees.now }
{
    fits_window(instructions(trees)) && !has_dup(trees)
}

/// The patterns of a window.
#[tactic(auto, unfolding(crate::specs::Patterns::window_patterns))]
fn window_patterns(
    alloc: Global,
    constants: &Constants,
    tree: &Tree,
) -> Result<Judged<Patterns>, Memory>
    ensures { IfOk result (λ patterns. patterns ≡ spec.window_patterns constants.now tree.now) }
{
    if is_window(vector(tree)) {
        patterns_of(alloc, tree, constants)
    } else {
        Ok(Err(Reason::Parts))
    }
}

/// What a form with this head matches.
#[tactic(auto, unfolding(crate::specs::Patterns::patterns_in))]
pub fn patterns_in(
    alloc: Global,
    constants: &Constants,
    head: FormHead,
    tree: Option<&Tree>,
) -> Result<Judged<Patterns>, Memory>
    ensures { IfOk result (λ patterns.
        patterns ≡ spec.patterns_in constants.now head (option_copied tree.entry)) }
{
    let Some(tree) = tree else {
        return Ok(Ok(no_patterns(alloc)));
    };
    match head {
        FormHead::Expand => patterns_of(alloc, tree, constants),
        FormHead::Peephole2 => window_patterns(alloc, constants, tree),
        _ => insn_patterns(alloc, constants, tree),
    }
}

/// What a form makes.
#[tactic(auto, unfolding(crate::specs::Patterns::sequence_in))]
pub fn sequence_in(
    alloc: Global,
    constants: &Constants,
    tree: Option<&Tree>,
) -> Result<Judged<Patterns>, Memory>
    ensures { IfOk result (λ patterns.
        patterns ≡ spec.sequence_in constants.now (option_copied tree.entry)) }
{
    match tree {
        Some(tree) => patterns_of(alloc, tree, constants),
        None => Ok(Ok(no_patterns(alloc))),
    }
}
