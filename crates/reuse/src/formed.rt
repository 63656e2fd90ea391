//! Whether a form matches.
ghost use Rattle.std.specs.Prelude.{◌≡◌, true, false, IfOk};
ghost use Rattle.reuse.specs.Reuse as spec;

use form_needs::lower_facts;
use md_desc::Description;
use plain_data::Memory;
use rtx_tree::Insn;
use std::alloc::Global;

/// Whether some form matches an instruction.
pub fn is_formed(alloc: Global, desc: &Description, insn: &Insn) -> Result<bool, Memory>
    ensures some { IfOk result (λ formed. formed ≡ true → spec.IsFormed desc.now insn.now) }
    ensures none { IfOk result (λ formed. formed ≡ false → spec.IsFormed desc.now insn.now → ⊥) }
{
    match desc.recog(alloc, &insn.pattern, &lower_facts(alloc))? {
        Some(_) => Ok(true),
        None => Ok(false),
    }
}
