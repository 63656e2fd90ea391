//! How a refusal is told: on one line, whatever bytes its names have.
ghost use Rattle.std.specs.Prelude.{◌≡◌, IfOk};
ghost use Rattle.rtlc_run.specs.Shown as spec;

use md_forms::shown_name;
use plain_data::Memory;
use run_refusal::{Refusal, line};
use std::alloc::Global;

/// A refusal as it is told. It takes no memory.
fn as_shown(refusal: Refusal) -> Refusal
    ensures { result ≡ spec.shown refusal }
{
    match refusal {
        Refusal::Syntax { file, place } => Refusal::Syntax {
            file: shown_name(file),
            place,
        },
        other => other,
    }
}

/// The line that is told of a refusal.
pub(crate) fn line_told(alloc: Global, refusal: Refusal) -> Result<Vec<u8>, Memory>
    ensures { IfOk result (λ text. text.items ≡ spec.line_told refusal) }
{
    line(alloc, &as_shown(refusal))
}
