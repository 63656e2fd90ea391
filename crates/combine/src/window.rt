//! The window of a pair, compared with what is to stand in its place.
ghost use Rattle.std.specs.Prelude.{◌≡◌, ◌<◌, ◌≤◌, ◌^◌, true, false, length, IfOk};
ghost use Rattle.equate.specs.Side as sides;
ghost use Rattle.equate.specs.Views.{side_of};
ghost use Rattle.equate.specs.Equated.{Equated};
ghost use Rattle.combine.specs.Combine as spec;
ghost use Rattle.combine.specs.machine.Found as found;

use equate::{Side, Verdict, equate};
use live_chain::LiveChain;
use plain_data::{Items, Memory};
use rtx_tree::{Insn, Insns, RegSet, Rtx, copy_insns};
use std::alloc::Global;
use sym_term::TermRefusal;

/// Instructions with a pattern in the last.
fn with_last(alloc: Global, insns: &[Insn], x: Rtx) -> Result<Insns, Memory>
    ensures { IfOk result (λ new. new ≡ spec.with_last x insns.now) }
{
    let Some((last, before)) = insns.split_last() else {
        return Ok(Items::new(alloc));
    };
    let mut new = copy_insns(alloc, before)?;
    new.push(last.with(alloc, x)?)?;
    Ok(new)
}

/// A window without its first, and with a pattern in its last.
fn fused_window(alloc: Global, window: &[Insn], x: Rtx) -> Result<Insns, Memory>
    ensures { IfOk result (λ new. new ≡ spec.fused_window x window.now) }
{
    match window.split_first() {
        Some((_, rest)) => with_last(alloc, rest, x),
        None => Ok(Items::new(alloc)),
    }
}

/// Whether instructions are equated with a side. Where a term is too large they are not.
fn is_same(alloc: Global, old: &[Insn], side: &Side, live: &RegSet) -> Result<bool, Memory>
    requires before { length old.now < 2 ^ 32 }
    requires after { sides.side_length (side_of side.now) < 2 ^ 32 }
    ensures same { IfOk result (λ same. same ≡ true →
        Equated old.now (side_of side.now) live.now) }
    ensures other { IfOk result (λ same. same ≡ false →
        Equated old.now (side_of side.now) live.now → ⊥) }
{
    match equate(alloc, old, side, live) {
        Ok(Verdict::Same) => Ok(true),
        Ok(_) => Ok(false),
        Err(TermRefusal::Size { .. }) => Ok(false),
        Err(TermRefusal::Memory) => Err(Memory),
    }
}

/// The instructions of a side.
fn insns_in(alloc: Global, side: Side) -> Insns
    ensures { result ≡ found.insns_in side }
{
    match side {
        Side::Insns { insns } => insns,
        Side::Lines { .. } => Items::new(alloc),
    }
}

/// A window without its first, and with a pattern in its last, where it is equated with the window.
fn compared(alloc: Global, window: &[Insn], x: Rtx, live: &RegSet) -> Result<Option<Insns>, Memory>
    requires { length window.now < 2 ^ 32 }
    ensures { IfOk result (found.Compared window.now x live.now) }
{
    let side = Side::Insns {
        insns: fused_window(alloc, window, x)?,
    };
    if is_same(alloc, window, &side, live)? {
        Ok(Some(insns_in(alloc, side)))
    } else {
        Ok(None)
    }
}

/// The window from one place up to another without its first, and with a pattern in its last, where
/// it is equated with the window over what is live behind it.
pub fn put_between(
    alloc: Global,
    chain: &mut LiveChain,
    first: u32,
    end: u32,
    x: Rtx,
) -> Result<Option<Insns>, Memory>
    requires order { first < end }
    requires within { end ≤ length chain.old.insns }
    ensures put { IfOk result (found.PutBetween chain.old first end x) }
    ensures same { chain.new ≡ chain.old }
{
    let live = chain.live_after(alloc, end - 1)?;
    // with the gap at its end the window is lent
    chain.move_gap(end)?;
    let window = chain.window(alloc, first, end)?;
    compared(alloc, window.as_slice(), x, &live)
}
