//! Patterns, and the tests of predicates.
use crate::parts::forms_in;
use c_eval::Preds;
use case_text::Told;
use cond_cases::constants_in;
use md_pattern::{Pattern, Reason, pattern_of};
use md_pred::PredTable;
use plain_data::{Items, Memory};
use pred_expr::{Test, test_of};
use pred_rows::TestRows;
use rtx_tree::{Code, Mode, Name, Rtx};
use std::alloc::Global;
use text_cases::tree_in;

fn show_reason(reason: Reason, told: &mut Told) {
    told.text("reason ");
    told.show(reason.number());
}

fn show_pattern(pattern: &Pattern, told: &mut Told) {
    told.show(pattern.tree.size());
    told.text(" nodes, ");
    told.show(pattern.texts.len());
}

/// The pattern of a text with the constants that are given.
fn pattern_in(alloc: Global, given: &[u8], input: &[u8]) -> Option<Result<Pattern, Reason>> {
    if let Some(tree) = tree_in(alloc, input)
        && let Some(constants) = constants_in(alloc, given)
    {
        pattern_of(alloc, &tree, &constants).ok()
    } else {
        None
    }
}

/// Appends the nodes of a pattern and how many constraints stand in it, or the reason for which its
/// tree is set aside.
fn tell_pattern(alloc: Global, given: &[u8], input: &[u8], told: &mut Told) {
    match pattern_in(alloc, given, input) {
        Some(Ok(pattern)) => show_pattern(&pattern, told),
        Some(Err(reason)) => show_reason(reason, told),
        None => told.fail(),
    }
}

fn show_predicates(alloc: Global, test: &Test, told: &mut Told) {
    let mut names = Items::new(alloc);
    let is_pushed = test.push_predicates(alloc, &mut names).is_ok();
    told.need(is_pushed);
    told.show(names.len());
}

/// The test of a text where no constants are defined.
fn test_in(alloc: Global, input: &[u8]) -> Option<Result<Test, Reason>> {
    let tree = tree_in(alloc, input)?;
    let constants = constants_in(alloc, b"")?;
    test_of(alloc, &tree, &constants).ok()
}

/// Appends how many predicates a test names, or the reason for which its tree is set aside.
fn tell_test(alloc: Global, input: &[u8], told: &mut Told) {
    match test_in(alloc, input) {
        Some(Ok(test)) => show_predicates(alloc, &test, told),
        Some(Err(reason)) => show_reason(reason, told),
        None => told.fail(),
    }
}

/// A register of 64 bits and one of 32, 5, 300, -1, a memory and a symbol.
fn operands(alloc: Global) -> Result<[Rtx; 7], Memory> {
    let name = Name::of(alloc, b"h")?;
    let memory = Rtx::of_one(alloc, Code::Mem, Mode::DI, Rtx::reg(alloc, Mode::DI, 2))?;
    Ok([
        Rtx::reg(alloc, Mode::DI, 10),
        Rtx::reg(alloc, Mode::SI, 11),
        Rtx::const_int(alloc, 5),
        Rtx::const_int(alloc, 300),
        Rtx::const_int(alloc, -1),
        memory,
        Rtx::of_name(alloc, Code::SymbolRef, Mode::DI, name),
    ])
}

/// The letters of these operands.
const LETTERS: &[u8] = b"rs5hnmy";

/// The modes in which operands are asked for: none, QI, SI and DI.
const MODES: [Mode; 4] = [Mode::Void, Mode::QI, Mode::SI, Mode::DI];

/// Appends what a test accepts, in a row behind itself, with the predicates of a description.
fn tell_held(alloc: Global, given: &[u8], input: &[u8], told: &mut Told) {
    match test_in(alloc, input) {
        Some(Ok(test)) => show_test(alloc, given, &test, told),
        _ => told.fail(),
    }
}

/// Puts a test behind itself, and gives its place.
fn pushed_twice(alloc: Global, test: &Test, rows: &mut TestRows) -> Result<usize, Memory> {
    rows.push(alloc, test)?;
    rows.push(alloc, test)
}

fn show_test(alloc: Global, given: &[u8], test: &Test, told: &mut Told) {
    let mut rows = TestRows::new(alloc);
    if let Ok(root) = pushed_twice(alloc, test, &mut rows)
        && let Some(preds) = preds_in(alloc, given)
    {
        show_held(alloc, &rows, root, &preds, told);
    } else {
        told.fail();
    }
}

/// Appends which operands the test at a place accepts, in each mode.
fn show_held(alloc: Global, rows: &TestRows, root: usize, preds: &PredTable, told: &mut Told) {
    let Ok(operands) = operands(alloc) else {
        return told.fail();
    };
    for mode in MODES {
        told.text("/");
        for (letter, operand) in LETTERS.iter().zip(&operands) {
            if rows.holds(root, preds, operand, mode) {
                told.push(&[*letter]);
            }
        }
    }
}

/// The predicates of a description.
pub fn preds_in(alloc: Global, text: &[u8]) -> Option<PredTable> {
    let Some(forms) = forms_in(alloc, text) else {
        return None;
    };
    PredTable::of(alloc, &forms).ok()
}

/// Appends what the predicate of a name accepts, with the predicates of a description.
fn tell_accepted(alloc: Global, given: &[u8], input: &[u8], told: &mut Told) {
    if let Ok(name) = Name::of(alloc, input)
        && let Some(preds) = preds_in(alloc, given)
    {
        show_accepted(alloc, &preds, &name, told);
    } else {
        told.fail();
    }
}

/// Appends which operands the predicate of a name accepts, in each mode.
fn show_accepted(alloc: Global, preds: &PredTable, name: &Name, told: &mut Told) {
    let Ok(operands) = operands(alloc) else {
        return told.fail();
    };
    for mode in MODES {
        told.text("/");
        for (letter, operand) in LETTERS.iter().zip(&operands) {
            if preds.holds(name, operand, mode) {
                told.push(&[*letter]);
            }
        }
    }
}

/// Tells what comes of an input. Whether it is a table of predicates.
pub fn answer(alloc: Global, table: &str, given: &[u8], input: &[u8], told: &mut Told) -> bool {
    match table {
        "patterns" => tell_pattern(alloc, given, input, told),
        "tests of predicates" => tell_test(alloc, input, told),
        "held tests" => tell_held(alloc, given, input, told),
        "predicates" => tell_accepted(alloc, given, input, told),
        _ => return false,
    }
    true
}
