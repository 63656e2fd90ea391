//! Matches patterns with expressions.
ghost use Rattle.std.specs.Prelude.{◌≡◌, ◌↔◌, ◌+◌, List, Some, IfOk, map};
ghost use Rattle.rtx_tree.specs.declared.tree.Rtx.{Rtx};
ghost use Rattle.md_match.specs.Pattern.{Ops};
ghost use Rattle.md_match.specs.Match.{Matches, MatchesOne};

use crate::collect::collect_each;
use crate::makes::makes_each;
use crate::steps::Steps;
use plain_data::Memory;
use rtx_tree::{Operands, Rtx};
use std::alloc::Global;
use std::slice;
use std::sync::ledger::Ledger;

/// The operands with which some patterns, which share them, are the expressions, one each,
/// predicates aside, or `None` exactly where there are none such. They are those that the patterns
/// give, and their list ends with the one of the greatest number. Each call is one step.
#[tactic(auto, using(crate::proofs::Unique::nowhere))]
pub fn match_shapes<L: Ledger>(
    alloc: Global,
    patterns: &[Rtx],
    insns: &[&Rtx],
    steps: &mut Steps<L>,
) -> Result<Option<Operands>, Memory>
    ensures operands { IfOk result (λ r. (operands : Ops) →
        (r ≡ Some operands) ↔ Matches patterns.now (map (λ insn. insn.now) insns.now) operands) }
    ensures step { steps.new ≡ steps.old + 1 }
    ensures one { (patterns insns : List Rtx) (a b : Ops) → Matches patterns insns a →
        Matches patterns insns b → a ≡ b }
{
    steps.tick();
    let Some(operands) = collect_each(alloc, patterns, insns, Operands::new(alloc))? else {
        return Ok(None);
    };
    if makes_each(patterns, insns, &operands) {
        Ok(Some(operands))
    } else {
        Ok(None)
    }
}

/// The operands with which one pattern is one expression, predicates aside, or `None` exactly where
/// there are none such. Each call is one step.
pub fn match_shape<L: Ledger>(
    alloc: Global,
    pattern: &Rtx,
    insn: &Rtx,
    steps: &mut Steps<L>,
) -> Result<Option<Operands>, Memory>
    ensures operands { IfOk result (λ r. (operands : Ops) →
        (r ≡ Some operands) ↔ MatchesOne pattern.now insn.now operands) }
    ensures step { steps.new ≡ steps.old + 1 }
{
    match_shapes(alloc, slice::from_ref(pattern), &[insn], steps)
}
