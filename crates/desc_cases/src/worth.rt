//! What conditions are worth.
use crate::parts::{behind_word, expression_in, halves, operands_of};
use crate::predicates::preds_in;
use c_cond::{Cond, parse_cond, parse_test};
use c_eval::{Facts, eval, eval_test};
use case_text::Told;
use cond_cases::constants_in;
use lisp_read::{Tree, rtx_of_tree, vector};
use md_pred::PredTable;
use plain_data::Items;
use rtx_tree::RegSet;
use std::alloc::Global;
use text_cases::trees_in;

/// Puts the register that a tree writes into a set. Whether it writes one.
fn insert(alloc: Global, tree: &Tree, set: &mut RegSet) -> bool {
    if let Ok(x) = rtx_of_tree(alloc, tree)
        && let Ok(number) = u32::try_from(x.number)
    {
        set.insert(number).is_ok()
    } else {
        false
    }
}

/// The registers of a vector.
fn set_of(alloc: Global, window: &Tree) -> Option<RegSet> {
    let mut set = RegSet::new(alloc);
    for tree in vector(window) {
        if !insert(alloc, tree, &mut set) {
            return None;
        }
    }
    Some(set)
}

/// What is known besides the operands. Where dead registers are given, one vector for each place of
/// a window, it is after homes.
fn facts_of(alloc: Global, windows: &[Tree]) -> Option<Facts> {
    let mut dead = Items::new(alloc);
    for window in windows {
        let Some(set) = set_of(alloc, window) else {
            return None;
        };
        if dead.push(set).is_err() {
            return None;
        }
    }
    Some(Facts {
        reloaded: !windows.is_empty(),
        new_pseudos: windows.is_empty(),
        dead,
    })
}

fn show_worth(alloc: Global, trees: &[Tree], preds: &PredTable, cond: &Cond, told: &mut Told) {
    if let Some(operands) = operands_of(alloc, behind_word(trees, b"operands"))
        && let Some(facts) = facts_of(alloc, behind_word(trees, b"dead"))
    {
        told.show(eval(cond, &facts, &operands, preds));
    } else {
        told.fail();
    }
}

/// The condition of a text with the constants that are given.
fn cond_in(alloc: Global, given: &[u8], input: &[u8]) -> Option<Cond> {
    match constants_in(alloc, given) {
        Some(constants) => parse_cond(alloc, input, &constants).ok(),
        None => None,
    }
}

/// Appends what a condition is worth, with the constants, the predicates, the operands and the dead
/// registers that are given.
fn tell_worth(alloc: Global, given: &[u8], input: &[u8], told: &mut Told) {
    if let Some(cond) = cond_in(alloc, given, input)
        && let Some(preds) = preds_in(alloc, given)
        && let Some(trees) = trees_in(alloc, given)
    {
        show_worth(alloc, trees.as_slice(), &preds, &cond, told);
    } else {
        told.fail();
    }
}

/// Appends what the test of a predicate is worth for an operand.
fn tell_test(alloc: Global, given: &[u8], input: &[u8], told: &mut Told) {
    if let Some((text, operand)) = halves(input)
        && let Some(operand) = expression_in(alloc, operand)
        && let Some(constants) = constants_in(alloc, given)
        && let Ok(test) = parse_test(alloc, text, &constants)
    {
        told.show(eval_test(&test, &operand));
    } else {
        told.fail();
    }
}

/// Tells what comes of an input. Whether it is a table of what conditions are worth.
pub fn answer(alloc: Global, table: &str, given: &[u8], input: &[u8], told: &mut Told) -> bool {
    match table {
        "worth" => tell_worth(alloc, given, input, told),
        "worth of tests" => tell_test(alloc, given, input, told),
        _ => return false,
    }
    true
}
