//! Where a text of C stops.
ghost use Rattle.std.specs.Prelude.{IfOk};
ghost use Rattle.c_stops.specs.declared.stop.Grammar.TheVariants as grammar;
ghost use Rattle.c_stops.specs.Stop.{text_of, IsStop};

use c_cond::{CondRefusal, parse_cond, parse_prep, parse_test};
use name_places::Constants;
use plain_data::Memory;
use std::alloc::Global;

/// What a text has to be.
#[derive(Clone, Copy)]
pub enum Grammar {
    /// The condition of a form.
    Condition,
    /// The condition in a test of a predicate or a constraint.
    Test,
    /// Preparation statements.
    Statements,
}

fn condition_stop(
    alloc: Global,
    constants: &Constants,
    text: &[u8],
) -> Result<Option<usize>, Memory>
    ensures { IfOk result (IsStop (text_of grammar.Condition constants.now) text.now) }
{
    match parse_cond(alloc, text, constants) {
        Ok(_) => Ok(None),
        Err(CondRefusal::Outside { offset }) => Ok(Some(offset as usize)),
        Err(CondRefusal::Memory) => Err(Memory),
    }
}

fn test_stop(alloc: Global, constants: &Constants, text: &[u8]) -> Result<Option<usize>, Memory>
    ensures { IfOk result (IsStop (text_of grammar.Test constants.now) text.now) }
{
    match parse_test(alloc, text, constants) {
        Ok(_) => Ok(None),
        Err(CondRefusal::Outside { offset }) => Ok(Some(offset as usize)),
        Err(CondRefusal::Memory) => Err(Memory),
    }
}

fn statements_stop(
    alloc: Global,
    constants: &Constants,
    text: &[u8],
) -> Result<Option<usize>, Memory>
    ensures { IfOk result (IsStop (text_of grammar.Statements constants.now) text.now) }
{
    match parse_prep(alloc, text, constants) {
        Ok(_) => Ok(None),
        Err(CondRefusal::Outside { offset }) => Ok(Some(offset as usize)),
        Err(CondRefusal::Memory) => Err(Memory),
    }
}

/// How many bytes of a text begin one of the grammar, at most, where it is none; nothing where it
/// is one.
pub fn stop_of(
    alloc: Global,
    constants: &Constants,
    grammar: Grammar,
    text: &[u8],
) -> Result<Option<usize>, Memory>
    ensures { IfOk result (IsStop (text_of grammar constants.now) text.now) }
{
    match grammar {
        Grammar::Condition => condition_stop(alloc, constants, text),
        Grammar::Test => test_stop(alloc, constants, text),
        Grammar::Statements => statements_stop(alloc, constants, text),
    }
}
