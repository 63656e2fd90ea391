//! What a word means where an expression may begin.
ghost use Rattle.std.specs.Prelude.{◌≡◌, IfOk, ℕ, List, OnOk};
ghost use Rattle.name_places.specs.Names.{constant_named};
ghost use Rattle.c_words.specs.Atoms as spec;

use crate::head::{Call, CondHead};
use crate::keyword::Keyword;
use crate::word::{code_in_capitals, is_target, mode_named, target_holds};
use md_operand::BuiltIn;
use name_places::{Constants, constant_named};
use plain_data::Memory;
use rtx_tree::{Code, Mode};
use std::alloc::Global;

/// What the text belongs to.
#[derive(Clone, Copy)]
pub enum Dialect {
    /// A form's condition, or statements: operands are `operands[k]`, and predicates may be called.
    Condition,
    /// The test of a predicate: the operand is `op`, its number `ival`, and no predicate may be
    /// called.
    Test,
}

/// What of an operand is compared with a name.
#[derive(Clone, Copy, Debug)]
pub enum Property {
    /// `GET_CODE (x)`
    Code,
    /// `GET_MODE (x)`
    Mode,
}

/// What a word means where an expression may begin.
#[derive(Debug, Drop)]
pub enum Atom {
    /// The word is an expression by itself.
    Leaf(CondHead),
    /// The word is called: operands follow in parentheses.
    Call(Call),
    /// An operand follows in parentheses, and a comparison.
    Compare(Property),
    /// A predicate: an operand and a mode follow in parentheses.
    Predicate,
    /// No expression begins so.
    Nothing,
}

fn is_question(call: Call) -> bool
    ensures { result ≡ spec.is_question call }
{
    match call {
        Call::GenInt
        | Call::GenIntMode
        | Call::GenReg
        | Call::ForceReg
        | Call::GenLowpart
        | Call::EmitMove => false,
        _ => true,
    }
}

fn atom_of_keyword(dialect: Dialect, keyword: Keyword) -> Atom
    ensures { result ≡ spec.atom_of_keyword dialect keyword }
{
    match keyword {
        Keyword::Call(call) if is_question(call) => Atom::Call(call),
        Keyword::GetCode => Atom::Compare(Property::Code),
        Keyword::GetMode => Atom::Compare(Property::Mode),
        Keyword::ReloadCompleted => Atom::Leaf(CondHead::ReloadCompleted),
        Keyword::Ival => match dialect {
            Dialect::Condition => Atom::Nothing,
            Dialect::Test => Atom::Leaf(CondHead::Ival),
        },
        _ => Atom::Nothing,
    }
}

fn target_number(word: &[u8]) -> i64
    ensures { result ≡ spec.target_number word.now }
{
    if target_holds(word) { 1 } else { 0 }
}

fn predicate_or_nothing(dialect: Dialect, code: Option<Code>, mode: Option<Mode>) -> Atom
    ensures { result ≡ spec.predicate_or_nothing dialect code mode }
{
    if code.is_some() || mode.is_some() {
        return Atom::Nothing;
    }
    match dialect {
        Dialect::Condition => Atom::Predicate,
        Dialect::Test => Atom::Nothing,
    }
}

/// Whether a word is a predicate that is there without a definition, where predicates may be called.
fn is_own_predicate(dialect: Dialect, word: &[u8]) -> bool
    ensures { result ≡ spec.is_own_predicate dialect word.now }
{
    match dialect {
        Dialect::Condition => BuiltIn::named(word).is_some(),
        Dialect::Test => false,
    }
}

fn atom_of_name(
    alloc: Global,
    dialect: Dialect,
    constants: &Constants,
    word: &[u8],
) -> Result<Atom, Memory>
    ensures { IfOk result (λ atom.
        atom ≡ spec.atom_of_name dialect word.now (constant_named constants.now word.now)) }
{
    match constant_named(constants, word) {
        Some(_) if is_own_predicate(dialect, word) => Ok(Atom::Predicate),
        Some(number) => Ok(Atom::Leaf(CondHead::Number(number))),
        None => {
            let code = code_in_capitals(alloc, word)?;
            Ok(predicate_or_nothing(dialect, code, mode_named(word)))
        }
    }
}

/// What a word with a meaning of its own means: where that is nothing, the word is the name of a
/// constant, where there is one.
fn or_constant(number: Option<i64>, meaning: Atom) -> Atom
    ensures { result ≡ spec.or_constant number meaning }
{
    match (number, meaning) {
        (Some(number), Atom::Nothing) => Atom::Leaf(CondHead::Number(number)),
        (_, meaning) => meaning,
    }
}

/// What a word means where an expression may begin.
pub fn atom_of(
    alloc: Global,
    dialect: Dialect,
    constants: &Constants,
    word: &[u8],
) -> Result<Atom, Memory>
    ensures { IfOk result (λ atom. atom ≡ spec.atom_of dialect constants.now word.now) }
{
    match Keyword::named(word) {
        Some(keyword) => Ok(or_constant(
            constant_named(constants, word),
            atom_of_keyword(dialect, keyword),
        )),
        None if is_target(word) => Ok(Atom::Leaf(CondHead::Number(target_number(word)))),
        None => atom_of_name(alloc, dialect, constants, word),
    }
}
