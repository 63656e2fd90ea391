//! Conditions and statements by their texts.
ghost use Rattle.std.specs.Prelude.{◌≡◌, IfOk, List, ℕ};
ghost use Rattle.c_cond.specs.Grammar.{IsText, Condition, Statements};
ghost use Rattle.c_cond.specs.c_words.declared.atom.Dialect.TheVariants as Dialect;
ghost use Rattle.md_pattern.specs.declared.reason.Reason.TheVariants as reason;
ghost use Rattle.pred_expr.specs.Texts as spec;

use c_cond::{Cond, CondRefusal, Prep, parse_cond, parse_prep, parse_test};
use md_pattern::{Judged, Reason};
use name_places::{Constants, NameTable};
use plain_data::{Items, Memory};
use std::alloc::Global;

/// The condition of a form that a text is, or `Condition` where the text is outside the grammar.
pub fn condition(alloc: Global, text: &[u8], constants: &Constants) -> Result<Judged<Cond>, Memory>
    ensures value { IfOk result (λ cond. cond ≡ spec.condition_of constants.now text.now) }
    ensures grammar { (bytes : List ℕ) →
        spec.Says reason.Condition (IsText Dialect.Condition constants.now Condition bytes)
        (spec.condition_of constants.now bytes) }
{
    match parse_cond(alloc, text, constants) {
        Ok(cond) => Ok(Ok(cond)),
        Err(CondRefusal::Outside { .. }) => Ok(Err(Reason::Condition)),
        Err(CondRefusal::Memory) => Err(Memory),
    }
}

/// The condition of a test that a text is, or `Condition` where the text is outside the grammar.
pub(crate) fn test_condition(
    alloc: Global,
    text: &[u8],
    constants: &Constants,
) -> Result<Judged<Cond>, Memory>
    ensures { IfOk result (λ cond. cond ≡ spec.test_condition_of constants.now text.now) }
{
    match parse_test(alloc, text, constants) {
        Ok(cond) => Ok(Ok(cond)),
        Err(CondRefusal::Outside { .. }) => Ok(Err(Reason::Condition)),
        Err(CondRefusal::Memory) => Err(Memory),
    }
}

/// The preparation statements that a text is, or `Statements` where the text is outside the
/// grammar.
pub fn statements(alloc: Global, text: &[u8], constants: &Constants) -> Result<Judged<Prep>, Memory>
    ensures value { IfOk result (λ prep. prep ≡ spec.statements_of constants.now text.now) }
    ensures grammar { (bytes : List ℕ) →
        spec.Says reason.Statements (IsText Dialect.Condition constants.now Statements bytes)
        (spec.statements_of constants.now bytes) }
{
    match parse_prep(alloc, text, constants) {
        Ok(prep) => Ok(Ok(prep)),
        Err(CondRefusal::Outside { .. }) => Ok(Err(Reason::Statements)),
        Err(CondRefusal::Memory) => Err(Memory),
    }
}

/// The condition that no text is: it is always true.
pub fn no_condition(alloc: Global) -> Result<Cond, Memory>
    ensures { IfOk result (λ cond. cond ≡ spec.always) }
{
    let none = NameTable::of(alloc, Items::new(alloc))?;
    match parse_cond(alloc, b"", &none) {
        Ok(cond) => Ok(cond),
        Err(_) => Err(Memory),
    }
}

/// The statements that no text is: they do nothing.
pub fn no_statements(alloc: Global) -> Result<Prep, Memory>
    ensures { IfOk result (λ prep. prep ≡ spec.nothing) }
{
    let none = NameTable::of(alloc, Items::new(alloc))?;
    match parse_prep(alloc, b"", &none) {
        Ok(prep) => Ok(prep),
        Err(_) => Err(Memory),
    }
}
