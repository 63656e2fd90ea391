//! The operands that a choice gives the placeholders of a pattern, and the instruction that is made
//! of them.
ghost use Rattle.std.specs.Prelude.{◌≡◌, [], IfOk, OnOk, slice_set};
ghost use Rattle.std.specs.Option.{option_copied};
ghost use Rattle.lint_made.specs.Made as spec;

use crate::candidate::Candidate;
use crate::tree::tree_with;
use lint_choices::Change;
use md_match::{instantiate, operand_of};
use plain_data::{Items, Memory};
use rtx_tree::{Code, Operands, Rtx};
use std::alloc::Global;

/// Puts an operand at a placeholder's number. More than 32 bits count find no memory.
fn put_numbered(operands: &mut Operands, number: i64, tree: Rtx) -> Result<(), Memory>
    ensures { OnOk result (operands.new ≡ spec.put_numbered operands.old number tree) }
{
    if number < 0 {
        return Ok(());
    }
    let Ok(number) = u32::try_from(number) else {
        return Err(Memory);
    };
    operands.put(number, tree)
}

fn put_option(operands: &mut Operands, number: i64, tree: Option<Rtx>) -> Result<(), Memory>
    ensures { OnOk result (operands.new ≡ spec.put_option operands.old number tree) }
{
    match tree {
        None => Ok(()),
        Some(tree) => put_numbered(operands, number, tree),
    }
}

/// The tree of a candidate that is picked, over a register.
fn tree_of(
    alloc: Global,
    candidates: &[Candidate],
    pick: usize,
    reg: u8,
) -> Result<Option<Rtx>, Memory>
    ensures { IfOk result (λ tree. tree ≡ spec.tree_of candidates.now pick reg) }
{
    match candidates.get(pick) {
        None => Ok(None),
        Some(candidate) => Ok(Some(tree_with(alloc, u32::from(reg), *candidate)?)),
    }
}

/// The tree that a placeholder has in a choice, by its place among those that give operands.
fn tree_at(
    alloc: Global,
    candidates: &[Items<Candidate>],
    picks: &[usize],
    regs: &[u8],
    at: usize,
) -> Result<Option<Rtx>, Memory>
    ensures { IfOk result (λ tree. tree ≡ spec.tree_at candidates.now picks.now regs.now at) }
{
    match (candidates.get(at), picks.get(at), regs.get(at)) {
        (Some(own), Some(pick), Some(reg)) => tree_of(alloc, own.as_slice(), *pick, *reg),
        _ => Ok(None),
    }
}

/// The operands of placeholders by their numbers, with the trees in their places.
fn bare_operands(
    alloc: Global,
    givers: &[Rtx],
    candidates: &[Items<Candidate>],
    picks: &[usize],
    regs: &[u8],
) -> Result<Operands, Memory>
    ensures { IfOk result (λ operands. operands ≡
        spec.bare_operands candidates.now picks.now regs.now [] 0 givers.now) }
{
    let mut operands = Operands::new(alloc);
    for (at, giver) in givers.iter().enumerate() {
        let tree = tree_at(alloc, candidates, picks, regs, at)?;
        put_option(&mut operands, giver.number, tree)?;
    }
    Ok(operands)
}

/// What an operand is made of.
fn source_of<'a>(bare: &'a Operands, placeholder: &'a Rtx) -> Option<&'a Rtx>
    ensures { option_copied result ≡ spec.source_of bare.entry.now placeholder.entry.now }
{
    match placeholder.code {
        Code::MatchOperator => Some(placeholder),
        _ => operand_of(placeholder, bare),
    }
}

fn whole_operand(alloc: Global, bare: &Operands, placeholder: &Rtx) -> Result<Option<Rtx>, Memory>
    ensures { IfOk result (λ tree. tree ≡ spec.whole_tree bare.now placeholder.now) }
{
    match source_of(bare, placeholder) {
        None => Ok(None),
        Some(source) => instantiate(alloc, source, bare),
    }
}

/// The operands, each whole: those behind are put first.
fn whole_operands(
    alloc: Global,
    bare: &Operands,
    givers: &[Rtx],
    operands: &mut Operands,
) -> Result<(), Memory>
    ensures { OnOk result (operands.new ≡
        spec.whole_behind bare.now operands.old givers.now) }
{
    for placeholder in givers {
        let tree = whole_operand(alloc, bare, placeholder)?;
        put_option(operands, placeholder.number, tree)?;
    }
    Ok(())
}

/// The operands of the placeholders that give them, where each has a candidate that is picked over
/// a register.
pub fn operands_by(
    alloc: Global,
    givers: &[Rtx],
    candidates: &[Items<Candidate>],
    picks: &[usize],
    regs: &[u8],
) -> Result<Operands, Memory>
    ensures { IfOk result (λ operands. operands ≡
        spec.operands_by givers.now candidates.now picks.now regs.now) }
{
    let bare = bare_operands(alloc, givers, candidates, picks, regs)?;
    let mut operands = Operands::new(alloc);
    whole_operands(alloc, &bare, givers, &mut operands)?;
    Ok(operands)
}

/// Which candidate each operand has, in a choice that differs so from some picks.
pub fn picks_in(alloc: Global, change: Change, picks: &[usize]) -> Result<Items<usize>, Memory>
    ensures { IfOk result (λ other. other ≡ spec.picks_in change picks.now) }
{
    let mut other = Items::from_slice(alloc, picks)?;
    match change {
        Change::One { operand, candidate } => pick(&mut other, operand, candidate),
        Change::Two {
            first,
            candidate,
            second,
            other: another,
        } => {
            pick(&mut other, first, candidate);
            pick(&mut other, second, another);
        }
        Change::Itself | Change::Shared { .. } | Change::Every => {}
    }
    Ok(other)
}

/// Gives an operand, where there is one with the number, another candidate.
fn pick(picks: &mut Items<usize>, operand: usize, candidate: usize)
    ensures { picks.new ≡ slice_set picks.old operand candidate }
{
    if operand < picks.len() {
        picks.replace(operand, candidate);
    }
}
