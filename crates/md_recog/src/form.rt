//! Whether one form matches.
ghost use Rattle.std.specs.Prelude.{◌≡◌, ◌↔◌, ◌+◌, ◌≤◌, true, Some, IfOk, map};
ghost use Rattle.md_match.specs.Pattern.{Ops};
ghost use Rattle.md_recog.specs.Recog.{has_half, patterns_of, FormMatches, EntryMatches};

use crate::half::{Half, window_of};
use crate::matching::match_insns;
use c_eval::{Facts, Preds};
use md_forms::{Entry, Form};
use md_match::Steps;
use plain_data::Memory;
use rtx_tree::{Operands, Rtx};
use std::alloc::Global;
use std::sync::ledger::Ledger;

/// How forms are matched with instructions: by which of their halves, and with which facts and
/// predicates.
#[derive(Drop)]
pub struct Matching<'a, P> {
    /// The half.
    pub half: Half,
    /// What holds where the instructions stand.
    pub facts: &'a Facts,
    /// The predicates.
    pub preds: &'a P,
}

/// The operands with which a half of a form that has it matches instructions, by the half's
/// patterns.
fn match_patterns<P: Preds, L: Ledger>(
    alloc: Global,
    form: &Form,
    matching: &Matching<'_, P>,
    patterns: &[Rtx],
    insns: &[&Rtx],
    steps: &mut Steps<L>,
) -> Result<Option<Operands>, Memory>
    requires has { has_half matching.now.half form.now.head ≡ true }
    requires patterns { patterns.now ≡ patterns_of matching.now.half form.now }
    ensures operands { IfOk result (λ r. (operands : Ops) →
        (r ≡ Some operands) ↔ FormMatches (P.accepts matching.now.preds.now) matching.now.facts.now
        matching.now.half (map (λ insn. insn.now) insns.now) form.now operands) }
    ensures step { steps.new ≤ steps.old + 1 }
{
    let condition = matching.half.condition_of(form);
    match_insns(
        alloc,
        patterns,
        condition,
        insns,
        matching.facts,
        matching.preds,
        steps,
    )
}

/// The operands with which a half of a form matches instructions.
fn match_form<P: Preds, L: Ledger>(
    alloc: Global,
    form: &Form,
    matching: &Matching<'_, P>,
    insns: &[&Rtx],
    steps: &mut Steps<L>,
) -> Result<Option<Operands>, Memory>
    ensures operands { IfOk result (λ r. (operands : Ops) →
        (r ≡ Some operands) ↔ FormMatches (P.accepts matching.now.preds.now) matching.now.facts.now
        matching.now.half (map (λ insn. insn.now) insns.now) form.now operands) }
    ensures step { steps.new ≤ steps.old + 1 }
{
    if !matching.half.is_of(form.head) {
        return Ok(None);
    }
    let patterns = form.patterns.as_slice();
    match matching.half {
        Half::Insn | Half::Split => match_patterns(alloc, form, matching, patterns, insns, steps),
        Half::Window => {
            let window = window_of(alloc, patterns)?;
            match_patterns(alloc, form, matching, window.as_slice(), insns, steps)
        }
    }
}

/// The operands with which a half of a form matches instructions. A form that is set aside never
/// does.
pub fn match_entry<P: Preds, L: Ledger>(
    alloc: Global,
    entry: &Entry,
    matching: &Matching<'_, P>,
    insns: &[&Rtx],
    steps: &mut Steps<L>,
) -> Result<Option<Operands>, Memory>
    ensures operands { IfOk result (λ r. (operands : Ops) →
        (r ≡ Some operands) ↔ EntryMatches (P.accepts matching.now.preds.now) matching.now.facts.now
        matching.now.half (map (λ insn. insn.now) insns.now) entry.now operands) }
    ensures step { steps.new ≤ steps.old + 1 }
{
    match &entry.form {
        Ok(form) => match_form(alloc, form, matching, insns, steps),
        Err(_) => Ok(None),
    }
}
