//! What is told of an instruction, and of a pass.
ghost use Rattle.std.specs.Prelude.{◌≡◌, IfOk};
ghost use Rattle.func_input.specs.machine.Steps.{IsOrMemory};
ghost use Rattle.func_after.specs.After as spec;

use pass_name::Pass;
use pass_refusal::PassRefusal;
use plain_data::Memory;
use reload::ReloadRefusal;
use rtx_tree::{Insn, Name};
use run_refusal::Refusal;
use std::alloc::Global;

/// The refusal of an instruction of a function at a pass.
pub fn unmatched(alloc: Global, pass: Pass, function: &Name, insn: &Insn) -> Result<Refusal, Memory>
    ensures { IfOk result (λ e. e ≡ spec.unmatched_at pass function.now insn.now) }
{
    Ok(Refusal::Unmatched {
        function: function.copy(alloc)?,
        uid: insn.uid,
        pass,
        insn: insn.pattern.copy(alloc)?,
    })
}

/// The refusal of the run for that of a pass over a function.
pub(crate) fn refused_for(function: Name, pass: Pass, refusal: PassRefusal) -> Refusal
    ensures { result ≡ spec.refused_for function pass refusal }
{
    match refusal {
        PassRefusal::Unmatched { uid, insn } => Refusal::Unmatched {
            function,
            uid,
            pass,
            insn,
        },
        PassRefusal::NotEquated {
            uid,
            rule,
            item,
            left,
            right,
        } => Refusal::NotEquated {
            function,
            uid,
            rule,
            item,
            left,
            right,
        },
        PassRefusal::Limit { which, count } => Refusal::Limit { which, count },
        PassRefusal::Memory => Refusal::Memory,
    }
}

/// The refusal of the run for that of a function at a pass, or want of memory.
pub fn refused_at(alloc: Global, function: &Name, pass: Pass, refusal: PassRefusal) -> Refusal
    ensures { IsOrMemory result (spec.refused_for function.now pass refusal) }
{
    match function.copy(alloc) {
        Ok(function) => refused_for(function, pass, refusal),
        Err(_) => Refusal::Memory,
    }
}

/// The refusal of the run for that of a function whose registers get no homes.
pub(crate) fn unreloaded_for(function: Name, refusal: ReloadRefusal) -> Refusal
    ensures { result ≡ spec.unreloaded_for function refusal }
{
    match refusal {
        ReloadRefusal::Unmatched { uid, insn } => Refusal::Unmatched {
            function,
            uid,
            pass: Pass::Reload,
            insn,
        },
        ReloadRefusal::Unsatisfied { uid, form, insn } => Refusal::Unsatisfied {
            function,
            uid,
            form,
            insn,
        },
        ReloadRefusal::Memory => Refusal::Memory,
    }
}
