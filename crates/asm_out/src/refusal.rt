//! How long an assembly may be.
ghost use Rattle.std.specs.Prelude.{◌≡◌};
ghost use Rattle.asm_out.specs.Refused as spec;

use pass_refusal::PassRefusal;
use rtx_tree::{Limit, MOST_OUTPUT};

/// The refusal of a text that is longer than an assembly may be.
pub(crate) fn too_long() -> PassRefusal
    ensures { result ≡ spec.too_long }
{
    PassRefusal::Limit {
        which: Limit::Output,
        count: MOST_OUTPUT as u64 + 1,
    }
}
