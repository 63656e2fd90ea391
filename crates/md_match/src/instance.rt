//! Puts operands into patterns.
ghost use Rattle.std.specs.Prelude.{◌≡◌, IfOk, IfSome, option_map, option_copied, is_none, [], ◌∷◌};
ghost use Rattle.rtx_tree.specs.Tree.{head_of, tree_of};
ghost use Rattle.md_match.specs.Match.{Suits, MatchesOne};
ghost use Rattle.md_match.specs.Pattern.{instantiated, all_instantiated, is_lacking};

use crate::role::{Role, operand_of, role_of};
use plain_data::{Items, Memory};
use rtx_tree::{Kids, Operands, Rtx};
use std::alloc::Global;

/// The pattern with the operands put in: an operand stands in the place of its placeholders and
/// dups, and for an operator stands the operand's code with the parts that the pattern has there.
/// `None` exactly where an operand that the pattern names is missing. Where the operands suit the
/// pattern, it matches what is made of it with the same operands.
#[tactic(auto, using(crate::proofs::Lacking::none_where_lacking, crate::proofs::OnePattern::matches_one))]
pub fn instantiate(alloc: Global, pattern: &Rtx, operands: &Operands) -> Result<Option<Rtx>, Memory>
    ensures made { IfOk result (λ r. r ≡ instantiated pattern.now operands.now) }
    ensures none { IfOk result (λ r. is_none r ≡ is_lacking pattern.now operands.now) }
    ensures inverse { IfOk result (λ r. IfSome r (λ insn. Suits (pattern.now ∷ []) operands.now →
        MatchesOne pattern.now insn operands.now)) }
{
    instance(alloc, pattern, operands)
}

#[cycle(instantiating)]
#[tactic(auto, using(crate::proofs::Instantiated::made_operand, crate::proofs::Instantiated::made_itself, crate::proofs::Instantiated::made_operator, crate::proofs::Instantiated::made_no_operator))]
fn instance(alloc: Global, pattern: &Rtx, operands: &Operands) -> Result<Option<Rtx>, Memory>
    ensures { IfOk result (λ r. r ≡ instantiated pattern.now operands.now) }
{
    match role_of(pattern.code) {
        Role::Operand => copy_of(alloc, operand_of(pattern, operands)),
        Role::Operator => {
            let Some(operator) = operand_of(pattern, operands) else {
                return Ok(None);
            };
            let parts = instances(alloc, pattern.kids.as_slice(), operands)?;
            with_parts(alloc, operator, parts)
        }
        Role::Itself => {
            let parts = instances(alloc, pattern.kids.as_slice(), operands)?;
            with_parts(alloc, pattern, parts)
        }
    }
}

/// The patterns with the operands put in, or `None` where an operand is missing.
#[cycle(instantiating)]
pub fn instances(
    alloc: Global,
    patterns: &[Rtx],
    operands: &Operands,
) -> Result<Option<Kids>, Memory>
    ensures { IfOk result (λ r. r ≡ all_instantiated patterns.now operands.now) }
{
    let mut kids = Items::new(alloc);
    for pattern in patterns {
        match instance(alloc, pattern, operands)? {
            None => return Ok(None),
            Some(kid) => kids.push(kid)?,
        }
    }
    Ok(Some(kids))
}

/// A copy of an operand, where there is one.
pub fn copy_of(alloc: Global, operand: Option<&Rtx>) -> Result<Option<Rtx>, Memory>
    ensures { IfOk result (λ r. r ≡ option_copied operand.entry) }
{
    match operand {
        None => Ok(None),
        Some(tree) => Ok(Some(tree.copy(alloc)?)),
    }
}

// The head of an expression over other parts, where there are such.
fn with_parts(alloc: Global, head: &Rtx, parts: Option<Kids>) -> Result<Option<Rtx>, Memory>
    ensures { IfOk result (λ r. r ≡ option_map (tree_of (head_of head.now)) parts) }
{
    let Some(kids) = parts else {
        return Ok(None);
    };
    Ok(Some(Rtx {
        code: head.code,
        mode: head.mode,
        number: head.number,
        name: head.name.copy(alloc)?,
        kids,
    }))
}
