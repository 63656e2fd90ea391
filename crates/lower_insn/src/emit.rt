//! What a form emits before registers have homes, and whether a form matches.
ghost use Rattle.std.specs.Prelude.{◌≡◌, ◌⊎◌, true, false, IfOk, MatchBool};
ghost use Rattle.form_needs.specs.Needs as needs;
ghost use Rattle.lower_insn.specs.Plan as spec;
ghost use Rattle.lower_insn.specs.Lowered.{IsMatched, IsUnmatched, is_note_tree};

use form_needs::lower_facts;
use gen_emit::Emission;
use md_desc::Description;
use md_emit::{emit, keeps_to_arguments};
use plain_data::Memory;
use rtx_tree::{Code, Operands, Rtx};
use std::alloc::Global;

/// What a form emits, or `None` exactly where it fails, or names a hard register other than a0 to
/// a7.
pub(crate) fn emission_of(
    alloc: Global,
    desc: &Description,
    form: u32,
    operands: Operands,
    next: u32,
) -> Result<Option<Emission>, Memory>
    ensures { IfOk result (λ e. e ≡ spec.emission_of desc.now form operands next) }
{
    match emit(alloc, desc, form, &lower_facts(alloc), operands, next)? {
        Some(emission) => Ok(if_kept(emission)),
        None => Ok(None),
    }
}

fn if_kept(emission: Emission) -> Option<Emission>
    ensures { result ≡ spec.if_kept emission }
{
    if keeps_to_arguments(emission.sequence.as_slice()) {
        Some(emission)
    } else {
        None
    }
}

/// Whether some form matches a pattern.
pub(crate) fn is_matched(alloc: Global, desc: &Description, x: &Rtx) -> Result<bool, Memory>
    ensures { IfOk result (λ b. MatchBool b (IsMatched desc.now x.now)
        (IsUnmatched desc.now x.now)) }
{
    match desc.recog(alloc, x, &lower_facts(alloc))? {
        Some(_) => Ok(true),
        None => Ok(false),
    }
}

/// Whether a pattern is a `use` or a `clobber` alone.
pub(crate) fn is_note(x: &Rtx) -> bool
    ensures { result ≡ is_note_tree x.now }
{
    matches!(x.code, Code::Use | Code::Clobber)
}
