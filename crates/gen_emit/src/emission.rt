//! What a form emits.
ghost use Rattle.std.specs.Prelude.{◌≡◌, option_map, IfOk};
ghost use Rattle.gen_emit.specs.Emission as spec;

use crate::draft::{Draft, Ended};
use crate::run::run;
use c_eval::{Facts, Preds};
use md_draft::FormHead;
use md_forms::Form;
use md_match::instances;
use plain_data::Memory;
use rtx_tree::{Kids, Operands, Rtx};
use std::alloc::Global;

/// What a form emits: patterns in order, and the next free pseudo register.
#[derive(Drop)]
pub struct Emission {
    /// The patterns of the instructions, in order.
    pub sequence: Kids,
    /// The next free pseudo register, by its number among pseudo registers.
    pub next: u32,
}

/// The patterns that a form emits.
fn patterns_of(form: &Form) -> &[Rtx]
    ensures { result.now ≡ spec.patterns_of form.now }
{
    match form.head {
        FormHead::Insn | FormHead::Expand => form.patterns.as_slice(),
        _ => form.sequence.as_slice(),
    }
}

/// What is emitted where the last statement is gone through.
fn through(alloc: Global, patterns: &[Rtx], draft: Draft) -> Result<Option<Emission>, Memory>
    ensures { IfOk result (λ r. r ≡ spec.through patterns.now draft) }
{
    let Some(insns) = instances(alloc, patterns, &draft.operands)? else {
        return Ok(None);
    };
    Ok(Some(Emission {
        sequence: draft.moves.append(insns)?,
        next: draft.next,
    }))
}

/// What a form emits with operands, where pseudo registers are free from a number on; `None` where
/// it fails. A pseudo register past 32 bits finds no memory.
pub fn emit<P: Preds>(
    alloc: Global,
    form: &Form,
    preds: &P,
    facts: &Facts,
    operands: Operands,
    next: u32,
) -> Result<Option<Emission>, Memory>
    ensures { IfOk result (λ r. r ≡ spec.emitted
        (P.accepts preds.now) facts.now form.now operands next) }
{
    let draft = Draft::new(alloc, operands, next);
    match run(alloc, &form.statements, preds, facts, draft)? {
        None => Ok(None),
        Some(Ended::Through(draft)) => through(alloc, patterns_of(form), draft),
        Some(Ended::Done(draft)) => Ok(Some(Emission {
            sequence: draft.moves,
            next: draft.next,
        })),
    }
}
