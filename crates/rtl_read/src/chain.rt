//! The chain of a function's instructions.
ghost use Rattle.std.specs.Prelude.{◌≡◌};
ghost use Rattle.std.specs.Option.{option_copied};
ghost use Rattle.rtx_tree.specs.Patterns.{nothing_rtx};
ghost use Rattle.rtl_read.specs.machine.Adding.{Adds};
ghost use Rattle.rtl_read.specs.Chain as spec;
ghost use Rattle.lisp_read.specs.Shape as shape;

use crate::call::{call, uses};
use crate::pattern::pattern;
use crate::word::number_of;
use lisp_read::{RtlRefusal, Tree, all_nested, is_nested, is_word, items, outside};
use plain_data::Items;
use rtx_tree::{ArgUses, Code, Insn, Insns, Kind, Mode, Rtx};
use std::alloc::Global;

fn insn_with(kind: Kind, uid: u32, uses: ArgUses, pattern: Rtx) -> Insn
    ensures { result ≡ spec.insn_with kind uid uses pattern }
{
    Insn {
        uid,
        kind,
        pattern,
        uses,
    }
}

/// The pattern of what does nothing, `(parallel [])`.
fn nothing(alloc: Global) -> Rtx
    ensures { result ≡ nothing_rtx }
{
    Rtx::of_kids(alloc, Code::Parallel, Mode::Void, Items::new(alloc))
}

fn add_insn_of(
    alloc: Global,
    kind: Kind,
    uid: u32,
    tree: &Tree,
    insns: &mut Insns,
) -> Result<(), RtlRefusal>
    ensures { Adds result insns.old insns.new (spec.insn_of_parts kind uid tree.now) }
{
    let pattern = pattern(alloc, tree)?;
    insns.push(insn_with(kind, uid, Items::new(alloc), pattern))?;
    Ok(())
}

/// A plain instruction or a jump, by the trees behind its head.
fn add_insn(
    alloc: Global,
    kind: Kind,
    tree: &Tree,
    parts: &[Tree],
    insns: &mut Insns,
) -> Result<(), RtlRefusal>
    ensures { Adds result insns.old insns.new
        (spec.insn_by kind tree.now (spec.insn_parts parts.now)) }
{
    match parts {
        [number, part, ..] if is_nested(part) => match number_of(number) {
            Some(uid) => add_insn_of(alloc, kind, uid, part, insns),
            None => Err(outside(alloc, tree)),
        },
        _ => Err(outside(alloc, tree)),
    }
}

fn add_call_of(
    alloc: Global,
    uid: u32,
    tree: &Tree,
    rest: &[Tree],
    insns: &mut Insns,
) -> Result<(), RtlRefusal>
    ensures { Adds result insns.old insns.new (spec.call_of_parts uid tree.now rest.now) }
{
    let pattern = call(alloc, tree)?;
    let uses = uses(alloc, rest)?;
    insns.push(insn_with(Kind::Call, uid, uses, pattern))?;
    Ok(())
}

/// A call, by the trees behind its head.
fn add_call(alloc: Global, tree: &Tree, parts: &[Tree], insns: &mut Insns) -> Result<(), RtlRefusal>
    ensures { Adds result insns.old insns.new (spec.call_by tree.now (spec.insn_parts parts.now)) }
{
    match parts {
        [number, part, rest @ ..] if is_nested(part) => match number_of(number) {
            Some(uid) => add_call_of(alloc, uid, part, rest, insns),
            None => Err(outside(alloc, tree)),
        },
        _ => Err(outside(alloc, tree)),
    }
}

fn leading_number(parts: &[Tree]) -> Option<u32>
    ensures { result ≡ spec.leading_number parts.now }
{
    match parts {
        [number, ..] => number_of(number),
        [] => None,
    }
}

/// A label, by the trees behind its head.
fn add_label(
    alloc: Global,
    tree: &Tree,
    parts: &[Tree],
    insns: &mut Insns,
) -> Result<(), RtlRefusal>
    ensures { Adds result insns.old insns.new
        (spec.label_by tree.now (spec.leading_number parts.now)) }
{
    let Some(uid) = leading_number(parts) else {
        return Err(outside(alloc, tree));
    };
    insns.push(insn_with(Kind::Label, uid, Items::new(alloc), nothing(alloc)))?;
    Ok(())
}

/// A barrier, which has no number.
fn add_barrier(alloc: Global, insns: &mut Insns) -> Result<(), RtlRefusal>
    ensures { Adds result insns.old insns.new spec.one_barrier }
{
    insns.push(insn_with(Kind::Barrier, 0, Items::new(alloc), nothing(alloc)))?;
    Ok(())
}

/// Whether a head is that of a note or of an edge of a block, which are passed over.
fn is_passed(head: &Tree) -> bool
    ensures { result ≡ spec.is_passed head.now }
{
    is_word(head, b"cnote") || is_word(head, b"edge-from") || is_word(head, b"edge-to")
}

/// Puts the instruction of an entry, if it is one, behind others.
fn add_entry(alloc: Global, tree: &Tree, insns: &mut Insns) -> Result<(), RtlRefusal>
    ensures { Adds result insns.old insns.new (spec.entry_of tree.now) }
{
    let [head, parts @ ..] = items(tree) else {
        return Err(outside(alloc, tree));
    };
    if is_word(head, b"cinsn") {
        add_insn(alloc, Kind::Plain, tree, parts, insns)
    } else if is_word(head, b"cjump_insn") {
        add_insn(alloc, Kind::Jump, tree, parts, insns)
    } else if is_word(head, b"ccall_insn") {
        add_call(alloc, tree, parts, insns)
    } else if is_word(head, b"clabel") {
        add_label(alloc, tree, parts, insns)
    } else if is_word(head, b"cbarrier") {
        add_barrier(alloc, insns)
    } else if is_passed(head) {
        Ok(())
    } else {
        Err(outside(alloc, tree))
    }
}

#[tactic(auto, using(crate::proofs::Joined::joined_ends, crate::proofs::Joined::joined_next, crate::proofs::Joined::joined_stops))]
fn add_entries(alloc: Global, trees: &[Tree], insns: &mut Insns) -> Result<(), RtlRefusal>
    ensures { Adds result insns.old insns.new (spec.entries_of trees.now) }
{
    for tree in trees {
        add_entry(alloc, tree, insns)?;
    }
    Ok(())
}

/// The entries of `(block N ENTRIES)`.
fn block_entries(tree: &Tree) -> Option<&[Tree]>
    ensures { option_copied result ≡ spec.block_entries (shape.items_of tree.now) }
{
    match items(tree) {
        [head, number, entries @ ..]
            if is_word(head, b"block") && number_of(number).is_some() && all_nested(entries) => {
            Some(entries)
        }
        _ => None,
    }
}

/// Puts the instructions of a block, or of an entry by itself, behind others.
fn add_item(alloc: Global, tree: &Tree, insns: &mut Insns) -> Result<(), RtlRefusal>
    ensures { Adds result insns.old insns.new (spec.item_of tree.now) }
{
    match block_entries(tree) {
        Some(entries) => add_entries(alloc, entries, insns),
        None => add_entry(alloc, tree, insns),
    }
}

#[tactic(auto, using(crate::proofs::Joined::joined_ends, crate::proofs::Joined::joined_next, crate::proofs::Joined::joined_stops))]
fn add_items(alloc: Global, trees: &[Tree], insns: &mut Insns) -> Result<(), RtlRefusal>
    ensures { Adds result insns.old insns.new (spec.items_joined trees.now) }
{
    for tree in trees {
        add_item(alloc, tree, insns)?;
    }
    Ok(())
}

/// Puts the instructions of `(insn-chain ITEMS)` behind others.
pub fn add_chain(alloc: Global, tree: &Tree, insns: &mut Insns) -> Result<(), RtlRefusal>
    ensures { Adds result insns.old insns.new (spec.chain_of tree.now) }
{
    match items(tree) {
        [head, rest @ ..] if is_word(head, b"insn-chain") && all_nested(rest) => {
            add_items(alloc, rest, insns)
        }
        _ => Err(outside(alloc, tree)),
    }
}
