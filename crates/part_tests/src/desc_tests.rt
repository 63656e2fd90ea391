//! Forms that are none, and tests that lack their parts.
use md_constr::{Constraints, alternatives_of, fits};
use md_pred::PredTable;
use plain_data::{Items, Memory};
use pred_expr::{Question, Test};
use pred_rows::TestRows;
use rtx_tree::{Code, Mode, Operands, Rtx};
use std::alloc::Global;

/// The predicates of a description without forms.
fn no_preds(alloc: Global) -> Result<PredTable, Memory> {
    PredTable::of(alloc, &Items::new(alloc))
}

/// The constraints of a description without forms.
fn no_constraints(alloc: Global) -> Result<Constraints, Memory> {
    Constraints::of(alloc, &Items::new(alloc))
}

/// Whether a form has no alternatives, and no operands fit it.
fn fits_nothing(alloc: Global, table: &Constraints, preds: &PredTable, form: u32) -> bool {
    alternatives_of(table, form) == 0 && !fits(table, preds, form, 0, &Operands::new(alloc))
}

/// Whether there is no form of a number, where no predicate is known.
fn lacks_form(alloc: Global, table: &Constraints, form: u32) -> Result<bool, Memory> {
    let preds = no_preds(alloc)?;
    let is_none = fits_nothing(alloc, table, &preds, form);
    drop(preds);
    Ok(is_none)
}

/// Whether there is no form of a number where a description has none.
fn is_no_form(alloc: Global, form: u32) -> Result<bool, Memory> {
    let table = no_constraints(alloc)?;
    let is_none = lacks_form(alloc, &table, form);
    drop(table);
    is_none
}

#[test]
fn forms_that_are_none(rt: HostRuntime) {
    assert!(rt; matches!(is_no_form(rt.alloc(), 0), Ok(true)));
    assert!(rt; matches!(is_no_form(rt.alloc(), 4294967295), Ok(true)));
}

/// A register, two numbers and a memory.
fn operands(alloc: Global) -> Result<[Rtx; 4], Memory> {
    let base = Rtx::reg(alloc, Mode::DI, 11);
    let memory = Rtx::of_one(alloc, Code::Mem, Mode::DI, base)?;
    Ok([
        Rtx::reg(alloc, Mode::DI, 10),
        Rtx::const_int(alloc, 5),
        Rtx::const_int(alloc, -1),
        memory,
    ])
}

/// Whether the test at a place holds for none of some operands.
fn never_holds(rows: &TestRows, root: usize, preds: &PredTable, operands: &[Rtx]) -> bool {
    let mut is_held = false;
    for operand in operands {
        is_held |= rows.holds(root, preds, operand, Mode::Void);
        is_held |= rows.holds(root, preds, operand, Mode::DI);
    }
    !is_held
}

/// Whether the test at a place never holds, and none holds behind all, where no test stands.
fn never_hold(
    alloc: Global,
    rows: &TestRows,
    root: usize,
    preds: &PredTable,
) -> Result<bool, Memory> {
    let operands = operands(alloc)?;
    let nowhere = rows.nodes().len();
    Ok(never_holds(rows, root, preds, &operands) && never_holds(rows, nowhere, preds, &operands))
}

/// Puts a question without its parts, and gives its place.
fn put_alone(alloc: Global, question: Question, rows: &mut TestRows) -> Result<usize, Memory> {
    let test = Test {
        question,
        parts: Items::new(alloc),
    };
    rows.push(alloc, &test)
}

/// Whether the test at a place never holds, and none holds behind all, where no predicate is known.
fn never_hold_alone(alloc: Global, rows: &TestRows, root: usize) -> Result<bool, Memory> {
    let preds = no_preds(alloc)?;
    let is_never = never_hold(alloc, rows, root, &preds);
    drop(preds);
    is_never
}

/// Whether a question without its parts never holds, and none holds behind it, where no test
/// stands.
fn is_without_parts(alloc: Global, question: Question) -> Result<bool, Memory> {
    let mut rows = TestRows::new(alloc);
    let root = put_alone(alloc, question, &mut rows)?;
    never_hold_alone(alloc, &rows, root)
}

/// A question without its parts never holds, and none holds where no test stands.
#[test]
fn parts_that_lack(rt: HostRuntime) {
    let alloc = rt.alloc();
    assert!(rt; matches!(is_without_parts(alloc, Question::And), Ok(true)));
    assert!(rt; matches!(is_without_parts(alloc, Question::Ior), Ok(true)));
    assert!(rt; matches!(is_without_parts(alloc, Question::Not), Ok(true)));
    assert!(rt; matches!(is_without_parts(alloc, Question::IfThenElse), Ok(true)));
}
