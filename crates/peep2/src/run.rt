//! Instructions that stand in one block.
ghost use Rattle.std.specs.Prelude.{◌≡◌, ◌<◌, IfOk, length};
ghost use Rattle.peep2.specs.Rewrite as spec;
ghost use Rattle.peep2.specs.machine.Steps.{RunTold};

use form_needs::is_kind;
use live_chain::LiveChain;
use plain_data::Memory;
use rtl_func::is_jump;
use rtx_tree::Insn;
use std::alloc::Global;

/// Whether no instruction follows.
fn is_end(insns: &[Insn]) -> bool
    ensures { result ≡ spec.is_end insns.now }
{
    match insns {
        [] => true,
        _ => false,
    }
}

/// Whether instructions stand in one block: there is no label and no barrier, and no jump but as the
/// last.
fn is_run(insns: &[Insn]) -> bool
    ensures { result ≡ spec.is_run insns.now }
{
    let Some((insn, more)) = insns.split_first() else {
        return true;
    };
    is_kind(insn.kind) && (is_end(more) || !is_jump(insn)) && is_run(more)
}

/// The place behind so many instructions of one block from a place on, or `None` exactly where so
/// many do not stand there. Places past 32 bits find no memory.
pub fn run_end(
    alloc: Global,
    chain: &mut LiveChain,
    place: u32,
    count: usize,
) -> Result<Option<u32>, Memory>
    requires { place < length chain.old.insns }
    ensures told { IfOk result (RunTold chain.old place count) }
    ensures same { chain.new ≡ chain.old }
{
    if count == 0 || count > chain.len() - place as usize {
        return Ok(None);
    }
    let end = place as usize + count;
    if end > u32::MAX as usize {
        return Err(Memory);
    }
    // with the gap at its end the window is lent
    chain.move_gap(end as u32)?;
    let window = chain.window(alloc, place, end as u32)?;
    if is_run(window.as_slice()) {
        Ok(Some(end as u32))
    } else {
        Ok(None)
    }
}
