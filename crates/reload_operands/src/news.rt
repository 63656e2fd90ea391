//! New trees in the places of operands.
ghost use Rattle.std.specs.Prelude.{◌≡◌, IfOk, map, unwrap_or};
ghost use Rattle.std.specs.Option.{option_copied};
ghost use Rattle.reload_operands.specs.Put as spec;

use md_match::{Role, operand_of, role_of};
use plain_data::{Items, Memory};
use reload_homes::with_parts;
use rtx_tree::{Kids, Operands, Rtx};
use std::alloc::Global;

fn new_or_own(alloc: Global, new: Option<&Rtx>, own: &Rtx) -> Result<Rtx, Memory>
    ensures { IfOk result (λ r. r ≡ unwrap_or (option_copied new.entry) own.now) }
{
    match new {
        Some(new) => new.copy(alloc),
        None => own.copy(alloc),
    }
}

fn copies(alloc: Global, trees: &[Rtx]) -> Result<Kids, Memory>
    ensures { IfOk result (λ r. r ≡ trees.now) }
{
    let mut kids = Items::new(alloc);
    for tree in trees {
        kids.push(tree.copy(alloc)?)?;
    }
    Ok(kids)
}

/// What a pattern makes of a tree that it matches, homes apart: in each place of an operand that
/// has a new tree stands this. All else is the tree's own, an operator's head among it; where the
/// tree has other parts than the pattern has there, they stay.
#[cycle(putting)]
#[tactic(auto, using(crate::proofs::PutLaws::put_operand))]
pub fn put(alloc: Global, pattern: &Rtx, news: &Operands, x: &Rtx) -> Result<Rtx, Memory>
    ensures { IfOk result (λ r. r ≡ spec.put pattern.now news.now x.now) }
{
    match role_of(pattern.code) {
        Role::Operand => new_or_own(alloc, operand_of(pattern, news), x),
        Role::Operator => {
            let kids = put_in_parts(alloc, pattern.kids.as_slice(), news, x.kids.as_slice())?;
            with_parts(alloc, x, kids)
        }
        Role::Itself => {
            let kids = put_in_parts(alloc, pattern.kids.as_slice(), news, x.kids.as_slice())?;
            with_parts(alloc, x, kids)
        }
    }
}

// The parts of a tree by those of a pattern.
#[cycle(putting)]
#[tactic(auto, using(crate::proofs::PutLaws::parts_stay, crate::proofs::PutLaws::parts_start, crate::proofs::PutLaws::parts_next, crate::proofs::PutLaws::parts_end))]
fn put_in_parts(
    alloc: Global,
    patterns: &[Rtx],
    news: &Operands,
    trees: &[Rtx],
) -> Result<Kids, Memory>
    ensures { IfOk result (λ r. r ≡ spec.parts_by (map (λ p.
        spec.put p news.now) patterns.now) trees.now) }
{
    if patterns.len() != trees.len() {
        return copies(alloc, trees);
    }
    let mut kids = Items::new(alloc);
    for i in 0..trees.len() {
        kids.push(put(alloc, &patterns[i], news, &trees[i])?)?;
    }
    Ok(kids)
}
