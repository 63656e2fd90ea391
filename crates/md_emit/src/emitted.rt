//! What a form of a description emits.
ghost use Rattle.std.specs.Prelude.{◌≡◌, IfOk, option_map};
ghost use Rattle.md_emit.specs.Emitted as spec;

use c_eval::Facts;
use md_desc::Description;
use md_forms::{Entry, Form};
use plain_data::Memory;
use rtx_tree::Operands;
use std::alloc::Global;

/// What a form says, where it is accepted.
fn says_of(entry: &Entry) -> Option<&Form>
    ensures { option_map (λ f. f.now) result ≡ spec.says_of entry.now.form }
{
    match &entry.form {
        Ok(form) => Some(form),
        Err(_) => None,
    }
}

/// What the form with an index emits with operands, where pseudo registers are free from a number
/// on; `None` where it fails, or is not accepted.
///
/// # Errors
///
/// `Memory` where memory ran out.
pub fn emit(
    alloc: Global,
    desc: &Description,
    form: u32,
    facts: &Facts,
    operands: Operands,
    next: u32,
) -> Result<Option<gen_emit::Emission>, Memory>
    ensures { IfOk result (λ r. r ≡ spec.emitted_by desc.now facts.now form operands next) }
{
    let Some(entry) = desc.forms().as_slice().get(form as usize) else {
        return Ok(None);
    };
    match says_of(entry) {
        Some(says) => gen_emit::emit(alloc, says, desc.preds(), facts, operands, next),
        None => Ok(None),
    }
}
