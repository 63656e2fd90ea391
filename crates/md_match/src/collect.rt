//! Collects the operands that a pattern gives from an expression.
ghost use Rattle.std.specs.Prelude.{◌≡◌, IfOk, map};
ghost use Rattle.md_match.specs.Pattern.{gives_number};
ghost use Rattle.md_match.specs.machine.Collected.{Makes, MakesAll, NamesGiven, Collects, is_given_by, is_given_in};

use crate::role::{Role, gives, role_of};
use plain_data::Memory;
use rtx_tree::{Operands, Rtx, same_head};
use std::alloc::Global;

/// The operands, with those that the pattern gives where they were missing; `None` only where no
/// operands make the expression of the pattern.
#[cycle(collecting)]
#[tactic(auto, using(crate::proofs::Collecting::itself_nowhere))]
fn collect(
    alloc: Global,
    pattern: &Rtx,
    insn: &Rtx,
    operands: Operands,
) -> Result<Option<Operands>, Memory>
    ensures { IfOk result (Collects (λ k.
        is_given_in k pattern.now) (Makes pattern.now insn.now) operands) }
{
    match role_of(pattern.code) {
        Role::Operand => place(alloc, pattern, insn, operands),
        Role::Operator => {
            match place(alloc, pattern, insn, operands)? {
                None => Ok(None),
                Some(more) => collect_all(
                    alloc,
                    pattern.kids.as_slice(),
                    insn.kids.as_slice(),
                    more,
                ),
            }
        }
        Role::Itself => {
            if !same_head(pattern, insn) {
                return Ok(None);
            }
            collect_all(
                alloc,
                pattern.kids.as_slice(),
                insn.kids.as_slice(),
                operands,
            )
        }
    }
}

// The operands, with those that some patterns, one for each expression, give where they were
// missing; `None` only where no operands make the expressions of the patterns.
#[cycle(collecting)]
#[tactic(auto, using(crate::proofs::Reaching::reaches_start, crate::proofs::Reaching::reaches_next, crate::proofs::Reaching::reaches_none, crate::proofs::Reaching::reaches_end, crate::proofs::Reaching::other_length))]
fn collect_all(
    alloc: Global,
    patterns: &[Rtx],
    insns: &[Rtx],
    operands: Operands,
) -> Result<Option<Operands>, Memory>
    ensures { IfOk result (Collects (is_given_by patterns.now)
        (MakesAll patterns.now insns.now) operands) }
{
    if patterns.len() != insns.len() {
        return Ok(None);
    }
    let mut operands = operands;
    for i in 0..patterns.len() {
        match collect(alloc, &patterns[i], &insns[i], operands)? {
            None => return Ok(None),
            Some(more) => operands = more,
        }
    }
    Ok(Some(operands))
}

/// The operands, with those that some patterns give where they were missing; `None` only where no
/// operands make the expressions of the patterns, one each.
#[tactic(auto, using(crate::proofs::Reaching::reaches_start, crate::proofs::Reaching::reaches_next, crate::proofs::Reaching::reaches_none, crate::proofs::Reaching::reaches_end, crate::proofs::Reaching::other_length))]
pub fn collect_each(
    alloc: Global,
    patterns: &[Rtx],
    insns: &[&Rtx],
    operands: Operands,
) -> Result<Option<Operands>, Memory>
    ensures { IfOk result (Collects (is_given_by patterns.now) (MakesAll patterns.now (map (λ insn.
        insn.now) insns.now)) operands) }
{
    if patterns.len() != insns.len() {
        return Ok(None);
    }
    let mut operands = operands;
    for i in 0..patterns.len() {
        match collect(alloc, &patterns[i], insns[i], operands)? {
            None => return Ok(None),
            Some(more) => operands = more,
        }
    }
    Ok(Some(operands))
}

// The operands, with this expression where the placeholder gives one that was missing.
fn place(
    alloc: Global,
    placeholder: &Rtx,
    insn: &Rtx,
    operands: Operands,
) -> Result<Option<Operands>, Memory>
    ensures { IfOk result (Collects (λ k.
        gives_number k placeholder.now) (NamesGiven placeholder.now insn.now) operands) }
{
    if !gives(placeholder.code) {
        return Ok(Some(operands));
    }
    let Ok(number) = u32::try_from(placeholder.number) else {
        return if placeholder.number < 0 {
            Ok(None)
        } else {
            Err(Memory)
        };
    };
    if operands.get(number as usize).is_some() {
        return Ok(Some(operands));
    }
    let mut operands = operands;
    operands.put(number, insn.copy(alloc)?)?;
    Ok(Some(operands))
}
