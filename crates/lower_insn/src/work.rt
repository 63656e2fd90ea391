//! What parts come to, one behind the other.
ghost use Rattle.std.specs.Prelude.{◌≡◌, ◌+◌, ◌++◌, ◌∷◌, [], true, false, map, reverse, length, IfOk};
ghost use Rattle.pass_refusal.specs.Outcome.{Gives};
ghost use Rattle.lower_insn.specs.declared.part.Part.TheVariants as part;
ghost use Rattle.lower_insn.specs.Lowered as spec;
ghost use Rattle.lower_insn.specs.machine.Work.{Advances, Moves, Comes, Counts, with_part};

use crate::emit::{emission_of, is_matched, is_note};
use crate::part::{Part, Plan, Uids};
use crate::plan::planned;
use md_desc::Description;
use pass_refusal::PassRefusal;
use plain_data::{Items, Memory};
use rtx_tree::{Kids, Operands, Rtx};
use std::alloc::Global;

/// What is still to be made, the next part last, and what has been made.
#[derive(Drop)]
pub struct Work {
    /// The parts.
    pub parts: Items<Part>,
    /// The sequence so far.
    pub sequence: Kids,
    /// The next free pseudo register.
    pub next: u32,
}

/// What a step comes to.
#[derive(Drop)]
pub enum Progress {
    /// More work.
    On(Work),
    /// The whole sequence.
    Done(Kids),
}

// ---- parts

/// Patterns that lowering made, as parts.
fn lower_parts(alloc: Global, patterns: Kids) -> Result<Items<Part>, Memory>
    ensures { IfOk result (λ parts. parts ≡ map (part.Lower true) patterns) }
{
    let mut parts = Items::new(alloc);
    for tree in patterns.into_vec() {
        parts.push(Part::Lower { made: true, tree })?;
    }
    Ok(parts)
}

/// What was emitted, as parts.
fn emitted_parts(alloc: Global, sequence: Kids) -> Result<Items<Part>, Memory>
    ensures { IfOk result (λ parts. parts ≡ map part.Emitted sequence) }
{
    let mut parts = Items::new(alloc);
    for tree in sequence.into_vec() {
        parts.push(Part::Emitted { tree })?;
    }
    Ok(parts)
}

/// The parts that stand for a pattern, by its plan.
fn parts_of(alloc: Global, made: bool, tree: Rtx, plan: Plan) -> Result<Items<Part>, Memory>
    ensures { IfOk result (λ parts. parts ≡ spec.parts_of made tree plan) }
{
    let mut parts = lower_parts(alloc, plan.before)?;
    parts.push(Part::Emit {
        made,
        tree,
        form: plan.form,
        operands: plan.operands,
    })?;
    let after = lower_parts(alloc, plan.after)?;
    parts.append(after)
}

/// Puts parts on a stack, the first of them last.
fn put_all(stack: Items<Part>, parts: Items<Part>) -> Result<Items<Part>, Memory>
    ensures { IfOk result (λ all. all ≡ stack ++ reverse parts) }
{
    let mut more = parts.into_vec();
    more.reverse();
    stack.append(Items::from_vec(more))
}

// ---- uids

/// A number and a count. Past 32 bits there is no memory.
fn add(number: u32, count: usize) -> Result<u32, Memory>
    ensures { IfOk result (λ sum. sum ≡ number + count) }
{
    let Ok(count) = u32::try_from(count) else {
        return Err(Memory);
    };
    match number.checked_add(count) {
        Some(sum) => Ok(sum),
        None => Err(Memory),
    }
}

/// The uid of what is made next.
#[tactic(auto, using(crate::proofs::Steps::uid_before))]
fn uid_at(uids: Uids, work: &Work) -> Result<u32, Memory>
    ensures { IfOk result (λ uid. uid ≡ spec.uid_at uids (reverse work.now.parts)
        (length work.now.sequence)) }
{
    if work.parts.is_empty() {
        Ok(uids.own)
    } else {
        add(uids.first, work.sequence.len())
    }
}

fn shown_uid(uids: Uids, made: bool, work: &Work) -> Result<u32, Memory>
    ensures { IfOk result (λ uid. uid ≡ spec.shown_uid uids made (reverse work.now.parts)
        (length work.now.sequence)) }
{
    if made {
        uid_at(uids, work)
    } else {
        Ok(uids.own)
    }
}

/// The refusal of a pattern for which no form counts, and which would be made next.
fn unmatched(uids: Uids, made: bool, work: &Work, x: Rtx) -> Result<PassRefusal, Memory>
    ensures { IfOk result (λ e. e ≡ spec.unmatched_at uids made (reverse work.now.parts)
        (length work.now.sequence) x) }
{
    Ok(PassRefusal::Unmatched {
        uid: shown_uid(uids, made, work)?,
        insn: x,
    })
}

// ---- steps

/// Work in which one pattern more has been made.
fn make(work: Work, x: Rtx) -> Result<Work, Memory>
    ensures { IfOk result (λ more. more ≡ record work { sequence = work.sequence ++ x ∷ [] }) }
{
    let mut more = work;
    more.sequence.push(x)?;
    Ok(more)
}

/// Work with more parts, which are the next.
fn put(work: Work, parts: Items<Part>, next: u32) -> Result<Work, Memory>
    ensures { IfOk result (λ more.
        more ≡ record {
          parts = work.parts ++ reverse parts;
          sequence = work.sequence;
          next = next;
        }) }
{
    Ok(Work {
        parts: put_all(work.parts, parts)?,
        sequence: work.sequence,
        next,
    })
}

/// Lowers a pattern.
fn lower_part(
    alloc: Global,
    desc: &Description,
    uids: Uids,
    work: Work,
    made: bool,
    tree: Rtx,
) -> Result<Work, PassRefusal>
    ensures { Advances desc.now uids (with_part work (part.Lower made tree)) result }
{
    if is_matched(alloc, desc, &tree)? {
        return Ok(make(work, tree)?);
    }
    match planned(alloc, desc, made, &tree, work.next)? {
        Some(plan) => {
            let next = plan.next;
            let parts = parts_of(alloc, made, tree, plan)?;
            Ok(put(work, parts, next)?)
        }
        None => Err(unmatched(uids, made, &work, tree)?),
    }
}

/// What is emitted for a pattern: whether it was made, its tree, and the form with its operands.
struct Emit {
    made: bool,
    tree: Rtx,
    form: u32,
    operands: Operands,
}

/// Emits what stands for a pattern.
fn emit_part(
    alloc: Global,
    desc: &Description,
    uids: Uids,
    work: Work,
    emit: Emit,
) -> Result<Work, PassRefusal>
    ensures { Advances desc.now uids (with_part work (part.Emit emit.made emit.tree emit.form
        emit.operands)) result }
{
    let Emit {
        made,
        tree,
        form,
        operands,
    } = emit;
    match emission_of(alloc, desc, form, operands, work.next)? {
        Some(emission) => {
            let next = emission.next;
            let parts = emitted_parts(alloc, emission.sequence)?;
            Ok(put(work, parts, next)?)
        }
        None => Err(unmatched(uids, made, &work, tree)?),
    }
}

/// Whether what was emitted counts: a form matches it, or it needs none.
fn counts(alloc: Global, desc: &Description, x: &Rtx) -> Result<bool, Memory>
    ensures { IfOk result (λ b. Counts desc.now x.now b) }
{
    if is_note(x) {
        return Ok(true);
    }
    is_matched(alloc, desc, x)
}

/// Takes what was emitted.
fn emitted_part(
    alloc: Global,
    desc: &Description,
    uids: Uids,
    work: Work,
    tree: Rtx,
) -> Result<Work, PassRefusal>
    ensures { Advances desc.now uids (with_part work (part.Emitted tree)) result }
{
    if counts(alloc, desc, &tree)? {
        Ok(make(work, tree)?)
    } else {
        Err(unmatched(uids, true, &work, tree)?)
    }
}

/// Makes the next part.
fn make_part(
    alloc: Global,
    desc: &Description,
    uids: Uids,
    work: Work,
    part: Part,
) -> Result<Work, PassRefusal>
    ensures { Advances desc.now uids (with_part work part) result }
{
    match part {
        Part::Lower { made, tree } => lower_part(alloc, desc, uids, work, made, tree),
        Part::Emit {
            made,
            tree,
            form,
            operands,
        } => {
            let emit = Emit {
                made,
                tree,
                form,
                operands,
            };
            emit_part(alloc, desc, uids, work, emit)
        }
        Part::Emitted { tree } => emitted_part(alloc, desc, uids, work, tree),
    }
}

/// Makes the next part, if there is one.
fn step(alloc: Global, desc: &Description, uids: Uids, work: Work) -> Result<Progress, PassRefusal>
    ensures { Moves desc.now uids work result }
{
    let mut work = work;
    match work.parts.pop() {
        Some(part) => Ok(Progress::On(make_part(alloc, desc, uids, work, part)?)),
        None => Ok(Progress::Done(work.sequence)),
    }
}

/// Makes all parts.
fn make_all(alloc: Global, desc: &Description, uids: Uids, work: Work) -> Result<Kids, PassRefusal>
    ensures { Gives result (Comes desc.now uids work) }
{
    let mut work = work;
    for _turn in 0..u64::MAX {
        match step(alloc, desc, uids, work)? {
            Progress::On(more) => work = more,
            Progress::Done(sequence) => return Ok(sequence),
        }
    }
    Err(PassRefusal::Memory)
}

/// Makes an instruction by its plan.
pub(crate) fn make_planned(
    alloc: Global,
    desc: &Description,
    uids: Uids,
    tree: Rtx,
    plan: Plan,
) -> Result<Kids, PassRefusal>
    ensures { Gives result (spec.Lowers desc.now uids (spec.parts_of false tree plan) 0 plan.next) }
{
    let next = plan.next;
    let parts = parts_of(alloc, false, tree, plan)?;
    let work = Work {
        parts: put_all(Items::new(alloc), parts)?,
        sequence: Items::new(alloc),
        next,
    };
    make_all(alloc, desc, uids, work)
}
