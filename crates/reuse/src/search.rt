//! The repeated value that is next.
ghost use Rattle.std.specs.Prelude.{◌≡◌, ◌<◌, ◌≤◌, ◌+◌, List, true, false, length, IfOk};
ghost use Rattle.md_forms.specs.declared.form.Entry.{Entry};
ghost use Rattle.rtx_tree.specs.Limit.{most_reused};
ghost use Rattle.reuse.specs.Reuse as spec;
ghost use Rattle.reuse.specs.machine.Found as found;

use crate::again::again_of;
use crate::between::{all_leave, keeps};
use crate::formed::is_formed;
use crate::sets::{reusing, sets_computed, source_of};
use crate::window::is_put;
use live_chain::LiveChain;
use md_desc::Description;
use plain_data::Memory;
use rtx_tree::{Insn, MOST_REUSED};
use std::alloc::Global;

/// A repeated value.
#[derive(Drop)]
pub struct Repeat {
    /// The place of the first.
    pub first: u32,
    /// The place of the second.
    pub second: u32,
    /// What is to stand there.
    pub new: Insn,
}

/// Where repeated values stand: their seconds from one place up to another, their firsts in front of
/// a third.
#[derive(Clone, Copy)]
pub struct Span {
    pub from: u32,
    pub end: usize,
    pub firsts: usize,
}

/// The place behind a place. One past 32 bits finds no memory.
pub fn behind(place: u32) -> Result<u32, Memory>
    ensures { IfOk result (λ end. end ≡ place + 1) }
{
    match place.checked_add(1) {
        Some(end) => Ok(end),
        None => Err(Memory),
    }
}

/// Whether the instruction at a first place keeps what the one at a second sets its place to.
fn is_kept(chain: &LiveChain, first: u32, second: u32) -> Result<bool, Memory>
    requires order { first < second }
    requires within { second < length chain.now.insns }
    ensures kept { IfOk result (λ kept. kept ≡ true → found.KeptFrom chain.now (first + 1) second →
        found.KeptFrom chain.now first second) }
    ensures none { IfOk result (λ kept. kept ≡ false → (forms : List Entry) →
        found.NoneUpto forms chain.now second first) }
{
    match source_of(chain.insn(second)) {
        Some(source) => keeps(chain.insn(first), source),
        None => Ok(false),
    }
}

/// The instruction that then stands at the second place, or `None` exactly where no value is
/// repeated there.
fn tried(
    alloc: Global,
    desc: &Description,
    chain: &mut LiveChain,
    first: u32,
    second: u32,
) -> Result<Option<Insn>, Memory>
    requires order { first < second }
    requires near { second ≤ first + most_reused }
    requires within { second < length chain.old.insns }
    requires kept { found.KeptFrom chain.old first second }
    ensures repeats { IfOk result (found.Tried desc.now chain.old first second) }
    ensures same { chain.new ≡ chain.old }
{
    let other = chain.insn(second);
    let Some(again) = again_of(chain.insn(first), other) else {
        return Ok(None);
    };
    if !all_leave(chain, first, second, again.register) {
        return Ok(None);
    }
    let new = reusing(alloc, other, again.mode, again.register)?;
    if !is_formed(alloc, desc, &new)? {
        return Ok(None);
    }
    let end = behind(second)?;
    if is_put(alloc, chain, first, end, &new)? {
        Ok(Some(new))
    } else {
        Ok(None)
    }
}

/// What [`tried`] gives, where the first stands in front of a place; behind it there is none.
fn tried_ahead(
    alloc: Global,
    desc: &Description,
    chain: &mut LiveChain,
    first: u32,
    second: u32,
    firsts: usize,
) -> Result<Option<Insn>, Memory>
    requires order { first < second }
    requires near { second ≤ first + most_reused }
    requires within { second < length chain.old.insns }
    requires kept { found.KeptFrom chain.old first second }
    requires ahead { found.AreAhead desc.now chain.old second firsts }
    ensures repeats { IfOk result (found.Tried desc.now chain.old first second) }
    ensures same { chain.new ≡ chain.old }
{
    if first as usize >= firsts {
        return Ok(None);
    }
    tried(alloc, desc, chain, first, second)
}

/// The repeated value with a second whose first stands last, or `None` exactly where there is none.
/// Such firsts stand in front of a place.
fn last_repeat(
    alloc: Global,
    desc: &Description,
    chain: &mut LiveChain,
    second: u32,
    firsts: usize,
) -> Result<Option<Repeat>, Memory>
    requires within { second < length chain.old.insns }
    requires ahead { found.AreAhead desc.now chain.old second firsts }
    ensures last { IfOk result (found.LastRepeat desc.now chain.old second) }
    ensures same { chain.new ≡ chain.old }
{
    if !sets_computed(chain.insn(second)) {
        return Ok(None);
    }
    let least = second.saturating_sub(MOST_REUSED);
    if firsts <= least as usize {
        return Ok(None);
    }
    let mut first = second;
    while first > least {
        first -= 1;
        if !is_kept(chain, first, second)? {
            return Ok(None);
        }
        if let Some(new) = tried_ahead(alloc, desc, chain, first, second, firsts)? {
            return Ok(Some(Repeat { first, second, new }));
        }
    }
    Ok(None)
}

/// The repeated value that is next, or `None` exactly where there is none. Repeated values stand
/// within a span.
pub fn next_repeat(
    alloc: Global,
    desc: &Description,
    chain: &mut LiveChain,
    span: Span,
) -> Result<Option<Repeat>, Memory>
    requires { found.AreWithin desc.now chain.old span }
    ensures next { IfOk result (found.NextRepeat desc.now chain.old) }
    ensures same { chain.new ≡ chain.old }
{
    let end = span.end.min(chain.len());
    let mut second = span.from;
    while (second as usize) < end {
        if let Some(repeat) = last_repeat(alloc, desc, chain, second, span.firsts)? {
            return Ok(Some(repeat));
        }
        second = behind(second)?;
    }
    Ok(None)
}
