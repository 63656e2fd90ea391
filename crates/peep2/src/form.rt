//! The first form that rewrites a window at a place.
ghost use Rattle.std.specs.Prelude.{◌≡◌, ◌+◌, ◌<◌, ◌≤◌, false, IfOk, length, map, option_map};
ghost use Rattle.new_insns.specs.Replaced.{window};
ghost use Rattle.md_emit.specs.Emitted as emitted;
ghost use Rattle.md_window.specs.Windows.{NeverMatchesAt};
ghost use Rattle.peep2.specs.Rewrite as spec;
ghost use Rattle.peep2.specs.machine.Steps as steps;

use crate::facts::facts_at;
use crate::run::run_end;
use crate::scratch::{free_registers, with_scratches};
use c_eval::Facts;
use live_chain::LiveChain;
use md_desc::Description;
use md_emit::emit;
use md_forms::{Entry, Form};
use md_recog::FormMatch;
use md_window::{has_shape, next_window, window_match, window_size};
use plain_data::Memory;
use rtx_tree::{Insn, Kids, Operands};
use std::alloc::Global;

/// A window that a form rewrites.
#[derive(Drop)]
pub struct Rewrite {
    /// The index of the form.
    pub form: u32,
    /// How many instructions the window has.
    pub count: u32,
    /// The place behind it.
    pub end: u32,
    /// The patterns in its place.
    pub sequence: Kids,
}

/// What a form says, where it is accepted.
fn says_of(entry: &Entry) -> Option<&Form>
    ensures { option_map (λ f. f.now) result ≡ emitted.says_of entry.now.form }
{
    match &entry.form {
        Ok(form) => Some(form),
        Err(_) => None,
    }
}

/// The operands with registers for the scratches among a form's elements.
fn given_to(
    alloc: Global,
    says: &Form,
    facts: &Facts,
    insns: &[Insn],
    operands: Operands,
) -> Result<Option<Operands>, Memory>
    ensures { IfOk result (λ r. r ≡ spec.given_to says.now facts.now
        (map (λ i. i.pattern) insns.now) operands) }
{
    let regs = free_registers(alloc, facts.dead.as_slice(), insns)?;
    with_scratches(alloc, says.patterns.as_slice(), regs.as_slice(), operands)
}

/// The operands with registers for the scratches that a form of the description asks for.
fn given_by(
    alloc: Global,
    desc: &Description,
    facts: &Facts,
    insns: &[Insn],
    form: u32,
    operands: Operands,
) -> Result<Option<Operands>, Memory>
    ensures { IfOk result (λ r. r ≡ spec.given_by desc.now facts.now
        (map (λ i. i.pattern) insns.now) form operands) }
{
    let Some(entry) = desc.forms().as_slice().get(form as usize) else {
        return Ok(None);
    };
    match says_of(entry) {
        Some(says) => given_to(alloc, says, facts, insns, operands),
        None => Ok(None),
    }
}

/// The sequence that a form that matches instructions puts in their place, or nothing where it
/// fails.
fn rewritten_by(
    alloc: Global,
    desc: &Description,
    facts: &Facts,
    insns: &[Insn],
    found: FormMatch,
) -> Result<Option<Kids>, Memory>
    ensures { IfOk result (λ r. r ≡ spec.rewritten_by desc.now facts.now
        (map (λ i. i.pattern) insns.now) found.form found.operands) }
{
    let FormMatch { form, operands } = found;
    let Some(given) = given_by(alloc, desc, facts, insns, form, operands)? else {
        return Ok(None);
    };
    match emit(alloc, desc, form, facts, given, 0)? {
        Some(emission) => Ok(Some(emission.sequence)),
        None => Ok(None),
    }
}

/// What a form makes of instructions, or `None` exactly where it makes nothing of them.
fn sequence_of(
    alloc: Global,
    desc: &Description,
    facts: &Facts,
    insns: &[Insn],
    form: u32,
) -> Result<Option<Kids>, Memory>
    requires { form < length desc.now }
    ensures { IfOk result (steps.MakesTold desc.now facts.now
        (map (λ i. i.pattern) insns.now) form) }
{
    match window_match(alloc, desc, insns, facts, form)? {
        Some(found) => rewritten_by(alloc, desc, facts, insns, found),
        None => Ok(None),
    }
}

/// Whether the window of a form has the shape of what stands between two places. Where it has not,
/// the form rewrites nothing there.
fn fits_between(
    alloc: Global,
    desc: &Description,
    chain: &mut LiveChain,
    place: u32,
    end: u32,
    form: u32,
) -> Result<bool, Memory>
    requires order { place ≤ end }
    requires within { end ≤ length chain.old.insns }
    ensures never { IfOk result (λ fits. fits ≡ false → NeverMatchesAt desc.now
        (map (λ i. i.pattern) (window chain.old place end)) form) }
    ensures same { chain.new ≡ chain.old }
{
    // with the gap at its end the window is lent
    chain.move_gap(end)?;
    let insns = chain.window(alloc, place, end)?;
    has_shape(alloc, desc, insns.as_slice(), form)
}

/// What a form makes of so many instructions of one block at a place.
fn sequence_at(
    alloc: Global,
    desc: &Description,
    chain: &mut LiveChain,
    place: u32,
    count: u32,
    end: u32,
    form: u32,
) -> Result<Option<Kids>, Memory>
    requires form { form < length desc.now }
    requires runs { steps.RunsTo chain.old place count end }
    ensures told { IfOk result (steps.RewritesTold desc.now chain.old place count form) }
    ensures same { chain.new ≡ chain.old }
{
    let facts = facts_at(alloc, chain, place, count)?;
    // with the gap at its end the window is lent
    chain.move_gap(end)?;
    let insns = chain.window(alloc, place, end)?;
    sequence_of(alloc, desc, &facts, insns.as_slice(), form)
}

/// What a form makes of a window at a place, or `None` exactly where it rewrites none there.
fn rewrite_by(
    alloc: Global,
    desc: &Description,
    chain: &mut LiveChain,
    place: u32,
    form: u32,
) -> Result<Option<Rewrite>, Memory>
    requires form { form < length desc.now }
    requires within { place < length chain.old.insns }
    ensures told { IfOk result (steps.FormTold desc.now chain.old place form) }
    ensures same { chain.new ≡ chain.old }
{
    let size = window_size(desc, form);
    let Some(end) = run_end(alloc, chain, place, size)? else {
        return Ok(None);
    };
    // asked first: what conditions know takes more, and of most windows it is not wanted
    if !fits_between(alloc, desc, chain, place, end, form)? {
        return Ok(None);
    }
    let count = size as u32;
    match sequence_at(alloc, desc, chain, place, count, end, form)? {
        Some(sequence) => Ok(Some(Rewrite {
            form,
            count,
            end,
            sequence,
        })),
        None => Ok(None),
    }
}

/// The index behind a form's. One past 32 bits finds no memory.
fn next_of(form: u32) -> Result<u32, Memory>
    ensures { IfOk result (λ next. next ≡ form + 1) }
{
    match form.checked_add(1) {
        Some(next) => Ok(next),
        None => Err(Memory),
    }
}

/// What the first form that rewrites a window at a place makes of it, or `None` exactly where none
/// does. Forms past 32 bits find no memory.
pub fn first_rewrite(
    alloc: Global,
    desc: &Description,
    chain: &mut LiveChain,
    place: u32,
) -> Result<Option<Rewrite>, Memory>
    requires { place < length chain.old.insns }
    ensures told { IfOk result (steps.FirstTold desc.now chain.old place) }
    ensures same { chain.new ≡ chain.old }
{
    let mut from = 0;
    while let Some(form) = next_window(desc, &chain.insn(place).pattern, from) {
        if let Some(found) = rewrite_by(alloc, desc, chain, place, form)? {
            return Ok(Some(found));
        }
        let next = next_of(form)?;
        from = next;
    }
    Ok(None)
}
