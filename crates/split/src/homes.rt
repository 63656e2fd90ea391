//! Whether registers have homes at a pass, and what follows of it for splits.
ghost use Rattle.std.specs.Prelude.{◌≡◌};
ghost use Rattle.split.specs.Split as spec;

use c_eval::Facts;
use form_needs::{lower_facts, output_facts};
use md_emit::keeps_to_arguments;
use pass_name::Pass;
use rtx_tree::Rtx;
use std::alloc::Global;

/// Whether registers have homes when a pass begins.
fn has_homes(pass: Pass) -> bool
    ensures { result ≡ spec.has_homes pass }
{
    match pass {
        Pass::Read | Pass::Lower | Pass::Reuse | Pass::Combine | Pass::Split1 | Pass::Reload =>
            false,
        Pass::Frame | Pass::Split2 | Pass::Peephole2 | Pass::Schedule | Pass::Output => true,
    }
}

/// What conditions know at a pass.
pub(crate) fn facts_of(alloc: Global, pass: Pass) -> Facts
    ensures { result ≡ spec.facts_of pass }
{
    if has_homes(pass) {
        output_facts(alloc)
    } else {
        lower_facts(alloc)
    }
}

/// Whether a sequence may be put in the place of an instruction at a pass.
pub(crate) fn is_admitted(pass: Pass, sequence: &[Rtx]) -> bool
    ensures { result ≡ spec.is_admitted pass sequence.now }
{
    has_homes(pass) || keeps_to_arguments(sequence)
}
