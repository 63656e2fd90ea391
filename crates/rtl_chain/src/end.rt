//! What is added at the end of a chain.
ghost use Rattle.std.specs.Prelude.{◌≡◌, ◌↔◌, IfOk, IsTrue};
ghost use Rattle.rtl_func.specs.Paths.{ReachesExit};
ghost use Rattle.rtl_chain.specs.End as spec;

use crate::counts::greatest_uid;
use plain_data::{Items, Memory};
use rtl_func::reaches_exit;
use rtx_tree::{Code, Function, Insn, Kind, Mode, Rtx};
use std::alloc::Global;

/// The return that is added at the end of a chain. It wants a number for it, as it wants memory.
pub fn return_insn(alloc: Global, insns: &[Insn]) -> Result<Insn, Memory>
    ensures { IfOk result (λ end. end ≡ spec.return_insn insns.now) }
{
    let Some(uid) = greatest_uid(insns).checked_add(1) else {
        return Err(Memory);
    };
    Ok(Insn {
        uid,
        kind: Kind::Jump,
        pattern: Rtx::leaf(alloc, Code::Return, Mode::Void, 0),
        uses: Items::new(alloc),
    })
}

/// Whether the end of a function's chain is reached. A chain with more places than have a number is
/// wanted as memory is.
pub fn is_ended(alloc: Global, f: &Function) -> Result<bool, Memory>
    ensures { IfOk result (λ reached. IsTrue reached ↔ ReachesExit f.now.insns) }
{
    if f.insns.len() < 0xffff_ffff {
        reaches_exit(alloc, f)
    } else {
        Err(Memory)
    }
}

/// What is added at the end of a function's chain, if anything is.
#[tactic(auto, using(crate::proofs::Ends::returning, crate::proofs::Ends::staying))]
pub fn end_of(alloc: Global, f: &Function) -> Result<Option<Insn>, Memory>
    ensures { IfOk result (λ end. spec.IsEnd f.now.insns end) }
{
    if is_ended(alloc, f)? {
        Ok(Some(return_insn(alloc, f.insns.as_slice())?))
    } else {
        Ok(None)
    }
}
