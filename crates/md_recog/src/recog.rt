//! Whether the form at a place matches.
ghost use Rattle.std.specs.Prelude.{◌≡◌, ◌↔◌, ◌+◌, ◌≤◌, ◌<◌, Some, IfOk, length, map};
ghost use Rattle.md_recog.specs.Recog.{MatchesHere};
ghost use Rattle.md_recog.specs.declared.recog.FormMatch.{FormMatch};

use crate::form::{Matching, match_entry};
use c_eval::Preds;
use md_forms::Entry;
use md_match::Steps;
use plain_data::Memory;
use rtx_tree::{Operands, Rtx};
use std::alloc::Global;
use std::sync::ledger::Ledger;

/// A form that matches instructions.
#[derive(Drop)]
pub struct FormMatch {
    /// The index of the form.
    pub form: u32,
    /// The operands with which it matches.
    pub operands: Operands,
}

/// The match of the form at a place, of which a half matches instructions, or `None` exactly where
/// it does not. It takes one step at most.
pub fn match_at<P: Preds, L: Ledger>(
    alloc: Global,
    forms: &[Entry],
    matching: &Matching<'_, P>,
    insns: &[&Rtx],
    form: u32,
    steps: &mut Steps<L>,
) -> Result<Option<FormMatch>, Memory>
    requires { form < length forms.now }
    ensures here { IfOk result (λ r. (m : FormMatch) →
        (r ≡ Some m) ↔ MatchesHere (P.accepts matching.now.preds.now) matching.now.facts.now
        matching.now.half (map (λ insn. insn.now) insns.now) forms.now form m) }
    ensures step { steps.new ≤ steps.old + 1 }
{
    match match_entry(alloc, &forms[form as usize], matching, insns, steps)? {
        Some(operands) => Ok(Some(FormMatch { form, operands })),
        None => Ok(None),
    }
}
