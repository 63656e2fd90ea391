//! A region, compared with its new order.
ghost use Rattle.std.specs.Prelude.{◌≡◌, ◌<◌, ◌≤◌, ◌^◌, true, false, length, IfOk};
ghost use Rattle.equate.specs.Side.{Insns as InsnsOf};
ghost use Rattle.equate.specs.Equated.{Equated};
ghost use Rattle.law_window_put.specs.Put.{IsPut};

use equate::{Side, Verdict, equate};
use live_chain::LiveChain;
use plain_data::Memory;
use rtx_tree::{Insn, RegSet, copy_insns};
use std::alloc::Global;
use sym_term::TermRefusal;

/// Whether instructions are equated with others. Where a term is too large they are not.
fn is_same(alloc: Global, old: &[Insn], new: &[Insn], live: &RegSet) -> Result<bool, Memory>
    requires before { length old.now < 2 ^ 32 }
    requires after { length new.now < 2 ^ 32 }
    ensures same { IfOk result (λ same. same ≡ true → Equated old.now (InsnsOf new.now) live.now) }
    ensures other { IfOk result (λ same. same ≡ false →
        Equated old.now (InsnsOf new.now) live.now → ⊥) }
{
    let side = Side::Insns {
        insns: copy_insns(alloc, new)?,
    };
    match equate(alloc, old, &side, live) {
        Ok(Verdict::Same) => Ok(true),
        Ok(_) => Ok(false),
        Err(TermRefusal::Size { .. }) => Ok(false),
        Err(TermRefusal::Memory) => Err(Memory),
    }
}

/// Whether the window from one place up to another is equated with other instructions over what is
/// live behind it.
pub fn is_put(
    alloc: Global,
    chain: &mut LiveChain,
    first: u32,
    end: u32,
    new: &[Insn],
) -> Result<bool, Memory>
    requires order { first < end }
    requires within { end ≤ length chain.old.insns }
    requires short { length new.now < 2 ^ 32 }
    ensures put { IfOk result (λ same. same ≡ true → IsPut chain.old first end new.now) }
    ensures other { IfOk result (λ same. same ≡ false → IsPut chain.old first end new.now → ⊥) }
    ensures same { chain.new ≡ chain.old }
{
    let live = chain.live_after(alloc, end - 1)?;
    chain.move_gap(end)?;
    // with the gap at its end the window is lent
    let window = chain.window(alloc, first, end)?;
    is_same(alloc, window.as_slice(), new, &live)
}
