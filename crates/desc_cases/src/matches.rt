//! What patterns match, and what is made of them.
ghost use Rattle.std.specs.Prelude.{◌≡◌, ◌<◌};

use crate::parts::halves;
use case_text::Told;
use cond_cases::constants_in;
use lisp_read::{Tree, is_word};
use md_match::{Steps, instantiate, match_shape};
use md_pattern::pattern_of;
use plain_data::Memory;
use rtx_tree::{Operands, Rtx, same};
use std::alloc::Global;
use std::marker::Brand;
use std::sync::ledger::{Blank, Ledger};
use text_cases::{show, tree_in, trees_in};

/// The pattern of a tree where no constants are defined.
fn pattern(alloc: Global, tree: &Tree) -> Option<Rtx> {
    let constants = constants_in(alloc, b"")?;
    match pattern_of(alloc, tree, &constants) {
        Ok(Ok(pattern)) => Some(pattern.tree),
        _ => None,
    }
}

fn pattern_in(alloc: Global, text: &[u8]) -> Option<Rtx> {
    let Some(tree) = tree_in(alloc, text) else {
        return None;
    };
    pattern(alloc, &tree)
}

/// Appends `-` so many times.
fn show_missing(missing: u32, told: &mut Told) {
    for _ in 0..missing {
        told.apart("-");
    }
}

/// Appends the operands in order; `-` is a missing one.
fn show_operands(operands: &Operands, told: &mut Told) {
    let mut missing: u32 = 0;
    for number in 0..32 {
        match operands.get(number) {
            Some(operand) => {
                show_missing(missing, told);
                missing = 0;
                told.gap();
                show(operand, told);
            }
            None => missing = missing.saturating_add(1),
        }
    }
}

/// The operands with which a pattern matches an instruction.
fn matched<L: Ledger>(
    alloc: Global,
    pattern: &Rtx,
    insn: &Rtx,
    blank: Blank,
) -> Result<Option<Operands>, Memory>
    requires name { blank.name ≡ L.name }
    requires parts { blank.parts ≡ L.parts }
    requires some { 0 < blank.parts }
{
    let mut steps = Steps::<L>::new(blank);
    match_shape(alloc, pattern, insn, &mut steps)
}

/// Appends operands, and where a pattern doesn't give the instruction back with them.
fn show_matched(alloc: Global, tree: &Rtx, insn: &Rtx, operands: &Operands, told: &mut Told) {
    told.text("matches");
    show_operands(operands, told);
    match instantiate(alloc, tree, operands) {
        Ok(Some(back)) if same(&back, insn) => {}
        Ok(_) => told.text(" and is not given back"),
        Err(_) => told.fail(),
    }
}

/// Appends the operands with which a pattern matches an instruction, or that it doesn't; and where
/// the pattern doesn't give it back.
fn tell_matched(alloc: Global, input: &[u8], told: &mut Told) {
    if let Some((first, second)) = halves(input)
        && let Some(tree) = pattern_in(alloc, first)
        && let Some(insn) = pattern_in(alloc, second)
    {
        match matched::<Brand>(alloc, &tree, &insn, Blank::new(1)) {
            Ok(Some(operands)) => show_matched(alloc, &tree, &insn, &operands, told),
            Ok(None) => told.text("none"),
            Err(_) => told.fail(),
        }
    } else {
        told.fail();
    }
}

/// Puts the operand that a tree writes under a number; `-` is a missing one. Whether the tree
/// writes one.
fn put_operand(alloc: Global, number: u32, tree: &Tree, operands: &mut Operands) -> bool {
    if is_word(tree, b"-") {
        return true;
    }
    match pattern(alloc, tree) {
        Some(x) => operands.put(number, x).is_ok(),
        None => false,
    }
}

fn operands_in(alloc: Global, text: &[u8]) -> Option<Operands> {
    let Some(trees) = trees_in(alloc, text) else {
        return None;
    };
    let mut operands = Operands::new(alloc);
    let mut number: u32 = 0;
    for tree in trees.as_slice() {
        if !put_operand(alloc, number, tree, &mut operands) {
            return None;
        }
        number = number.saturating_add(1);
    }
    Some(operands)
}

/// Appends what a pattern makes of operands, or that it makes nothing.
fn tell_made(alloc: Global, input: &[u8], told: &mut Told) {
    if let Some((first, second)) = halves(input)
        && let Some(tree) = pattern_in(alloc, first)
        && let Some(operands) = operands_in(alloc, second)
    {
        show_made(alloc, &tree, &operands, told);
    } else {
        told.fail();
    }
}

fn show_made(alloc: Global, tree: &Rtx, operands: &Operands, told: &mut Told) {
    match instantiate(alloc, tree, operands) {
        Ok(Some(made)) => show(&made, told),
        Ok(None) => told.text("none"),
        Err(_) => told.fail(),
    }
}

/// Tells what comes of an input. Whether it is a table of matches.
pub fn answer(alloc: Global, table: &str, input: &[u8], told: &mut Told) -> bool {
    match table {
        "matches" => tell_matched(alloc, input, told),
        "makes" => tell_made(alloc, input, told),
        _ => return false,
    }
    true
}
