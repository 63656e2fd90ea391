//! The instructions of a function with its frame.
ghost use Rattle.std.specs.Prelude.{◌≡◌, ◌+◌, ◌++◌, length, IfOk, OnOk};
ghost use Rattle.law_frame.specs.Frame as spec;
ghost use Rattle.frame.specs.machine.Items as steps;

use crate::patterns::{epilogue, prologue};
use assign::Layout;
use plain_data::{Items, Memory};
use rtx_tree::{Code, Insn, Insns, Kind, Mode, Rtx};
use std::alloc::Global;

fn plain_with(alloc: Global, uid: u32, pattern: Rtx) -> Insn
    ensures { result ≡ spec.plain_with uid pattern }
{
    Insn {
        uid,
        kind: Kind::Plain,
        pattern,
        uses: Items::new(alloc),
    }
}

fn return_with(alloc: Global, uid: u32) -> Insn
    ensures { result ≡ spec.return_with uid }
{
    Insn {
        uid,
        kind: Kind::Jump,
        pattern: Rtx::leaf(alloc, Code::Return, Mode::Void, 0),
        uses: Items::new(alloc),
    }
}

/// The uid behind another. One past 32 bits finds no memory.
fn uid_behind(uid: u32) -> Result<u32, Memory>
    ensures { IfOk result (λ next. next ≡ uid + 1) }
{
    match uid.checked_add(1) {
        Some(next) => Ok(next),
        None => Err(Memory),
    }
}

/// Adds instructions of patterns, with uids from one on. Gives the next.
#[tactic(auto, using(crate::proofs::Pushes::plain_push))]
fn add_plain(alloc: Global, uid: u32, patterns: &[Rtx], insns: &mut Insns) -> Result<u32, Memory>
    ensures put { OnOk result (insns.new ≡ insns.old ++ spec.plain_insns uid patterns.now) }
    ensures next { IfOk result (λ next. next ≡ uid + length patterns.now) }
{
    let mut next = uid;
    for pattern in patterns {
        insns.push(plain_with(alloc, next, pattern.copy(alloc)?))?;
        next = uid_behind(next)?;
    }
    Ok(next)
}

/// Adds the patterns that leave the frame, and a return. Gives the next uid.
fn add_leaving(alloc: Global, uid: u32, epilogue: &[Rtx], insns: &mut Insns) -> Result<u32, Memory>
    ensures put { OnOk result (insns.new ≡ insns.old ++ steps.leaving_by epilogue.now uid) }
    ensures next { IfOk result (λ next. next ≡ uid + (length epilogue.now + 1)) }
{
    let behind = add_plain(alloc, uid, epilogue, insns)?;
    insns.push(return_with(alloc, behind))?;
    uid_behind(behind)
}

fn returns(insn: &Insn) -> bool
    ensures { result ≡ spec.returns insn.now }
{
    matches!(insn.kind, Kind::Jump) && matches!(insn.pattern.code, Code::Return)
}

/// Adds an item of a chain, or what stands in the place of a return. Gives the next uid.
fn add_item(
    alloc: Global,
    uid: u32,
    epilogue: &[Rtx],
    insn: Insn,
    insns: &mut Insns,
) -> Result<u32, Memory>
    ensures put { OnOk result (insns.new ≡ insns.old ++ steps.item_by epilogue.now uid insn) }
    ensures next { IfOk result (λ next. next ≡ steps.uid_by epilogue.now uid insn) }
{
    if returns(&insn) {
        return add_leaving(alloc, uid, epilogue, insns);
    }
    insns.push(insn)?;
    Ok(uid)
}

/// Adds the items of a chain, with the frame left at each return.
#[tactic(auto, using(crate::proofs::Pushes::left_push, crate::proofs::Pushes::uids_push))]
fn add_items(
    alloc: Global,
    uid: u32,
    layout: &Layout,
    chain: Insns,
    insns: &mut Insns,
) -> Result<(), Memory>
    ensures { OnOk result (insns.new ≡ insns.old ++ spec.left_at_returns layout.now uid chain) }
{
    let left = epilogue(alloc, layout)?;
    let mut next = uid;
    for insn in chain.into_vec() {
        next = add_item(alloc, next, left.as_slice(), insn, insns)?;
    }
    Ok(())
}

/// A finished chain with the frame of a layout. New instructions take uids from one on; uids past
/// 32 bits find no memory.
pub(crate) fn framed_insns(
    alloc: Global,
    layout: &Layout,
    uid: u32,
    chain: Insns,
) -> Result<Insns, Memory>
    ensures { IfOk result (λ insns. insns ≡ spec.framed_insns layout.now uid chain) }
{
    let made = prologue(alloc, layout)?;
    let mut insns = Items::new(alloc);
    let next = add_plain(alloc, uid, made.as_slice(), &mut insns)?;
    add_items(alloc, next, layout, chain, &mut insns)?;
    Ok(insns)
}
