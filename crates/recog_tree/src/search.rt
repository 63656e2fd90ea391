//! The first form of which a half matches an instruction, of those that have its key.
ghost use Rattle.std.specs.Prelude.{◌≡◌, ◌↔◌, ◌+◌, ◌≤◌, ◌<◌, ◌^◌, ◌∷◌, [], true, Some, None, IfOk, MatchOption, List, length};
ghost use Rattle.std.specs.List.{count_by};
ghost use Rattle.md_forms.specs.declared.form.Entry.{Entry};
ghost use Rattle.md_match.specs.Pattern.{Ops};
ghost use Rattle.md_recog.specs.Recog.{IsFirst, NoneBetween, EntryMatches};
ghost use Rattle.md_recog.specs.declared.recog.FormMatch.{FormMatch};
ghost use Rattle.recog_tree.specs.Key.{is_tried};
ghost use Rattle.recog_tree.specs.Windows.{NoneBegins, MayBegin};
ghost use Rattle.recog_tree.specs.machine.Tables.{AreTablesOf};
ghost use Rattle.md_recog.specs.declared.half.Half.TheVariants as half;

use crate::key::key_of;
use crate::tables::{Tables, next_tried};
use c_eval::Preds;
use md_forms::Entry;
use md_recog::{FormMatch, Matching, Steps, match_at};
use plain_data::Memory;
use rtx_tree::Rtx;
use std::alloc::Global;
use std::sync::ledger::Ledger;

/// The first form from an index on of which a half matches an instruction, or `None` exactly where
/// there is none such. There are at most as many steps as forms with the instruction's key in that
/// half, and what matches has it.
pub fn recog<P: Preds, L: Ledger>(
    alloc: Global,
    tables: &Tables,
    forms: &[Entry],
    matching: &Matching<'_, P>,
    insn: &Rtx,
    from: u32,
    steps: &mut Steps<L>,
) -> Result<Option<FormMatch>, Memory>
    requires tables { AreTablesOf matching.now.half tables.now forms.now }
    requires short { length forms.now < 2 ^ 32 }
    ensures first { IfOk result (λ r. (m : FormMatch) →
        (r ≡ Some m) ↔ IsFirst (P.accepts matching.now.preds.now) matching.now.facts.now
        matching.now.half (insn.now ∷ []) forms.now from m) }
    ensures none { IfOk result (λ r. r ≡ None →
        NoneBetween (P.accepts matching.now.preds.now) matching.now.facts.now matching.now.half
        (insn.now ∷ []) forms.now from (length forms.now)) }
    ensures tries { steps.new ≤ steps.old + count_by (is_tried matching.now.half insn.now)
        forms.now }
    ensures keyed { (entry : Entry) (operands : Ops) →
        EntryMatches (P.accepts matching.now.preds.now) matching.now.facts.now matching.now.half
        (insn.now ∷ []) entry operands → is_tried matching.now.half insn.now entry ≡ true }
{
    let key = key_of(insn);
    let mut place = from;
    while let Some(form) = next_tried(tables, key, place) {
        if let Some(found) = match_at(alloc, forms, matching, &[insn], form, steps)? {
            return Ok(Some(found));
        }
        place = form + 1;
    }
    Ok(None)
}

/// The first form from an index on whose window may begin with an instruction, by the tables of
/// windows: it has the instruction's key.
pub fn next_window(tables: &Tables, insn: &Rtx, from: u32) -> Option<u32>
    requires { length tables.now.keys < 2 ^ 32 }
    ensures { (forms : List Entry) → AreTablesOf half.Window tables.now forms →
        MatchOption result (NoneBegins forms insn.now from (length forms))
        (λ form. MayBegin forms insn.now from form) }
{
    next_tried(tables, key_of(insn), from)
}
