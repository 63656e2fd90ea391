//! Rows of heads that no text is parsed to.
use c_cond::{Cond, CondHead, Unary, parse_cond};
use c_eval::{Facts, Reading, eval, read};
use cond_cases::constants_in;
use md_pred::PredTable;
use plain_data::{Items, Memory};
use rtx_tree::{Code, Mode, Operands, RegSet, Rtx};
use std::alloc::Global;

fn facts(alloc: Global) -> Facts {
    Facts {
        reloaded: false,
        new_pseudos: true,
        dead: Items::new(alloc),
    }
}

/// The predicates of a description without forms.
fn no_preds(alloc: Global) -> Result<PredTable, Memory> {
    PredTable::of(alloc, &Items::new(alloc))
}

/// What is read of a row of heads by these predicates, where no operand is known.
fn reading_by(alloc: Global, heads: &[CondHead], preds: &PredTable) -> Reading {
    read(heads, &facts(alloc), &Operands::new(alloc), preds)
}

/// What is read of a row of heads, where no operand and no predicate is known.
fn reading(alloc: Global, heads: &[CondHead]) -> Result<Reading, Memory> {
    let preds = no_preds(alloc)?;
    let reading = reading_by(alloc, heads, &preds);
    drop(preds);
    Ok(reading)
}

/// What is read of a row of two numbers and a head.
fn last(alloc: Global, head: CondHead) -> Result<Reading, Memory> {
    reading(alloc, &[CondHead::Number(1), CondHead::Number(0), head])
}

/// The last tree of a row is read.
#[test]
fn the_last_tree_of_heads(rt: HostRuntime) {
    let alloc = rt.alloc();
    assert!(rt; matches!(reading(alloc, &[]), Ok(Reading::Nothing)));
    assert!(rt;
        matches!(
            last(alloc, CondHead::Unary(Unary::Not)),
            Ok(Reading::Number(1))
        )
    );
}

/// The last head of a row is read where it has no parts.
#[test]
fn the_last_of_heads(rt: HostRuntime) {
    let alloc = rt.alloc();
    assert!(rt; matches!(last(alloc, CondHead::Operand(3)), Ok(Reading::Operand(3))));
    assert!(rt;
        matches!(
            last(alloc, CondHead::Mode(Mode::SI)),
            Ok(Reading::Mode(Mode::SI))
        )
    );
    assert!(rt; matches!(last(alloc, CondHead::Window(2)), Ok(Reading::Window(2))));
}

/// A head that is no value, or that lacks its parts, is read as nothing.
#[test]
fn heads_that_are_read_as_nothing(rt: HostRuntime) {
    let alloc = rt.alloc();
    assert!(rt; matches!(last(alloc, CondHead::Done), Ok(Reading::Nothing)));
    assert!(rt; matches!(last(alloc, CondHead::Choose), Ok(Reading::Nothing)));
}

/// An operand that is a register without a number of one.
fn no_register(alloc: Global) -> Result<Operands, Memory> {
    let mut operands = Operands::new(alloc);
    operands.put(0, Rtx::leaf(alloc, Code::Reg, Mode::DI, 4_294_967_306))?;
    Ok(operands)
}

/// A window with one place, at which nothing is dead.
fn window(alloc: Global) -> Result<Facts, Memory> {
    let mut facts = facts(alloc);
    facts.dead.push(RegSet::new(alloc))?;
    Ok(facts)
}

/// That the first operand is not dead.
fn not_dead(alloc: Global) -> Option<Cond> {
    let text = b"!peep2_reg_dead_p (0, operands[0])";
    parse_cond(alloc, text, &constants_in(alloc, b"")?).ok()
}

/// What a condition is worth by these predicates where the first operand is a register without a
/// number of one.
fn worth_by(alloc: Global, cond: &Cond, facts: &Facts, preds: &PredTable) -> Result<i64, Memory> {
    let operands = no_register(alloc)?;
    Ok(eval(cond, facts, &operands, preds))
}

/// What a condition is worth where the first operand is a register without a number of one.
fn worth_of(alloc: Global, cond: &Cond, facts: &Facts) -> Result<i64, Memory> {
    let preds = no_preds(alloc)?;
    let worth = worth_by(alloc, cond, facts, &preds);
    drop(preds);
    worth
}

/// What it is worth that an operand that is a register without a number of one is not dead.
fn worth(alloc: Global) -> Option<i64> {
    if let Some(cond) = not_dead(alloc)
        && let Ok(facts) = window(alloc)
    {
        worth_of(alloc, &cond, &facts).ok()
    } else {
        None
    }
}

/// An operand that is a register without a number of one is not known to be dead.
#[test]
fn registers_that_are_none(rt: HostRuntime) {
    assert!(rt; matches!(worth(rt.alloc()), Some(0)));
}
