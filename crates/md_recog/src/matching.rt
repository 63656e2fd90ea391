//! Matches patterns with instructions.
ghost use Rattle.std.specs.Prelude.{◌≡◌, ◌↔◌, ◌+◌, Some, IfOk, map};
ghost use Rattle.md_match.specs.Pattern.{Ops};
ghost use Rattle.md_recog.specs.Match.{IsMatch};
ghost use Rattle.md_recog.specs.Match as spec;

use crate::accepted::each_accepted;
use c_cond::Cond;
use c_eval::{Facts, Preds, eval};
use md_match::{Steps, match_shapes};
use plain_data::Memory;
use rtx_tree::{Operands, Rtx};
use std::alloc::Global;
use std::sync::ledger::Ledger;

/// Whether a condition is not 0 with operands.
pub fn is_met<P: Preds>(condition: &Cond, facts: &Facts, operands: &Operands, preds: &P) -> bool
    ensures { result ≡ spec.is_met (P.accepts preds.now) facts.now condition.now operands.now }
{
    eval(condition, facts, operands, preds) != 0
}

/// The operands with which some patterns with a condition match as many instructions, or `None`
/// exactly where there are none such. Each call is one step, since it tries the shape once.
#[tactic(auto, using(crate::proofs::Usable::shapeless))]
pub fn match_insns<P: Preds, L: Ledger>(
    alloc: Global,
    patterns: &[Rtx],
    condition: &Cond,
    insns: &[&Rtx],
    facts: &Facts,
    preds: &P,
    steps: &mut Steps<L>,
) -> Result<Option<Operands>, Memory>
    ensures operands { IfOk result (λ r. (operands : Ops) →
        (r ≡ Some operands) ↔ IsMatch (P.accepts preds.now) facts.now patterns.now condition.now
        (map (λ insn. insn.now) insns.now) operands) }
    ensures step { steps.new ≡ steps.old + 1 }
{
    if !each_accepted(patterns, insns, preds) {
        steps.tick();
        return Ok(None);
    }
    let Some(operands) = match_shapes(alloc, patterns, insns, steps)? else {
        return Ok(None);
    };
    if is_met(condition, facts, &operands, preds) {
        Ok(Some(operands))
    } else {
        Ok(None)
    }
}
