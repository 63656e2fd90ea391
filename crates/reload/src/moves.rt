//! Moves.
ghost use Rattle.std.specs.Prelude.{◌≡◌, ◌+◌, IfOk};
ghost use Rattle.law_frame.specs.Frame as frames;
ghost use Rattle.reload.specs.machine.Added.{AddsMove, AddsMoves};

use crate::refusal::ReloadRefusal;
use crate::setting::Setting;
use plain_data::{Items, Memory};
use rtx_tree::{Insn, Insns, Kind, Rtx};
use std::alloc::Global;

fn plain_with(alloc: Global, uid: u32, pattern: Rtx) -> Insn
    ensures { result ≡ frames.plain_with uid pattern }
{
    Insn {
        uid,
        kind: Kind::Plain,
        pattern,
        uses: Items::new(alloc),
    }
}

/// The uid behind another. One past 32 bits finds no memory.
fn uid_behind(uid: u32) -> Result<u32, Memory>
    ensures { IfOk result (λ next. next ≡ uid + 1) }
{
    match uid.checked_add(1) {
        Some(next) => Ok(next),
        None => Err(Memory),
    }
}

/// Adds a move with a uid, where some form matches it. Gives the next uid.
fn add_move(setting: &Setting, uid: u32, x: &Rtx, insns: &mut Insns) -> Result<u32, ReloadRefusal>
    ensures { AddsMove setting.now.desc.now uid x.now insns.old insns.new result }
{
    let pattern = x.copy(setting.alloc)?;
    if !setting.is_matched(x)? {
        return Err(ReloadRefusal::Unmatched { uid, insn: pattern });
    }
    insns.push(plain_with(setting.alloc, uid, pattern))?;
    Ok(uid_behind(uid)?)
}

/// Adds moves with uids from one on, where some form matches each. Gives the next uid.
pub(crate) fn add_moves(
    setting: &Setting,
    uid: u32,
    moves: &[Rtx],
    insns: &mut Insns,
) -> Result<u32, ReloadRefusal>
    ensures { AddsMoves setting.now.desc.now uid moves.now insns.old insns.new result }
{
    let mut next = uid;
    for x in moves {
        next = add_move(setting, next, x, insns)?;
    }
    Ok(next)
}
