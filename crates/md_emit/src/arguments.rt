//! The hard registers that a sequence names.
ghost use Rattle.std.specs.Prelude.{◌≡◌};
ghost use Rattle.md_emit.specs.Emitted as spec;

use rtl_func::argument_registers;
use rtx_tree::Rtx;

/// Whether a sequence names no hard registers but a0 to a7. It takes no memory.
pub fn keeps_to_arguments(sequence: &[Rtx]) -> bool
    ensures { result ≡ spec.keeps_to_arguments sequence.now }
{
    sequence.iter().all(|x| argument_registers(x, &[]))
}
