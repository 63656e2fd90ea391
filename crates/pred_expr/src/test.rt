//! Reads a test from its tree.
ghost use Rattle.std.specs.Prelude.{◌≡◌, ◌↔◌, ℕ, List, ◌∷◌, [], ◌++◌, IfOk, map};
ghost use Rattle.std.specs.Option.{option_copied};
ghost use Rattle.md_pattern.specs.lisp_read.Head.{mode_of_head};
ghost use Rattle.md_pattern.specs.lisp_read.Shape.{atom_of};
ghost use Rattle.md_text.specs.Lists as lists;
ghost use Rattle.md_pattern.specs.Reason.{judged_with, IsSmallest};
ghost use Rattle.md_pattern.specs.declared.reason.Reason.TheVariants as reason;
ghost use Rattle.c_cond.specs.c_words.declared.atom.Dialect.TheVariants as Dialect;
ghost use Rattle.c_cond.specs.Grammar.{IsText, Condition};
ghost use Rattle.md_pattern.specs.lisp_read.declared.tree.Tree.{Tree};
ghost use Rattle.pred_expr.specs.declared.question.Test.{Test};
ghost use Rattle.pred_expr.specs.HasReason.{HasReason};
ghost use Rattle.pred_expr.specs.Test as spec;
ghost use Rattle.pred_expr.specs.Texts as texts;
ghost use Rattle.rtx_tree.specs.Code.{code_in};

use crate::question::{Codes, Question, Test, Tests};
use crate::texts::test_condition;
use lisp_read::{Tree, atom, head_words, items, string};
use md_pattern::{Judged, Reason, both, number_in};
use md_text::members_of;
use name_places::Constants;
use plain_data::{Items, Memory};
use rtx_tree::{Code, Mode, Name};
use std::alloc::Global;

/// What stands at the head of a test.
#[derive(Clone, Copy)]
pub enum TestKind {
    /// `match_code`
    Codes,
    /// `match_test`
    Condition,
    /// `match_operand`
    Predicate,
    /// `and`
    And,
    /// `ior`
    Ior,
    /// `not`
    Not,
    /// `if_then_else`
    IfThenElse,
}

/// The kind of the test that this atom stands at the head of.
fn kind_of(head: &[u8]) -> Option<TestKind>
    ensures { result ≡ spec.kind_of head.now }
{
    if head == b"match_code".as_slice() {
        Some(TestKind::Codes)
    } else if head == b"match_test".as_slice() {
        Some(TestKind::Condition)
    } else if head == b"and".as_slice() {
        Some(TestKind::And)
    } else if head == b"ior".as_slice() {
        Some(TestKind::Ior)
    } else if head == b"not".as_slice() {
        Some(TestKind::Not)
    } else if head == b"if_then_else".as_slice() {
        Some(TestKind::IfThenElse)
    } else {
        match head_words(head).0 {
            Some(Code::MatchOperand) => Some(TestKind::Predicate),
            _ => None,
        }
    }
}

/// A question that is no part of others.
fn alone(alloc: Global, question: Question) -> Test
    ensures { result ≡ spec.alone question }
{
    Test {
        question,
        parts: Items::new(alloc),
    }
}

/// A string alone.
fn text_in(parts: &[Tree]) -> Option<&Name>
    ensures { option_copied result ≡ spec.text_in parts.now }
{
    match parts {
        [text] => string(text),
        _ => None,
    }
}

/// Codes by their names, or none where one of them is unknown.
#[tactic(auto, using(md_text::proofs::Each::with_nothing, md_text::proofs::Each::each_next, md_text::proofs::Each::each_stops, md_text::proofs::Each::each_ends))]
fn codes_named(alloc: Global, names: &[Name]) -> Result<Option<Codes>, Memory>
    ensures { IfOk result (λ codes. codes ≡ lists.each code_in names.now) }
{
    let mut codes = Items::new(alloc);
    for name in names {
        match Code::written(name.bytes()) {
            Some(code) => codes.push(code)?,
            None => return Ok(None),
        }
    }
    Ok(Some(codes))
}

fn codes(alloc: Global, parts: &[Tree]) -> Result<Judged<Test>, Memory>
    ensures { IfOk result (λ test. test ≡ spec.codes_by (spec.text_in parts.now)) }
{
    let Some(text) = text_in(parts) else {
        return Ok(Err(Reason::Parts));
    };
    let names = members_of(alloc, text.bytes())?;
    match codes_named(alloc, names.as_slice())? {
        Some(codes) => Ok(Ok(alone(alloc, Question::Codes(codes)))),
        None => Ok(Err(Reason::Code)),
    }
}

fn condition(alloc: Global, constants: &Constants, parts: &[Tree]) -> Result<Judged<Test>, Memory>
    ensures { IfOk result (λ test.
        test ≡ spec.condition_by constants.now (spec.text_in parts.now)) }
{
    let Some(text) = text_in(parts) else {
        return Ok(Err(Reason::Parts));
    };
    match test_condition(alloc, text.bytes(), constants)? {
        Ok(cond) => Ok(Ok(alone(alloc, Question::Condition(cond)))),
        Err(reason) => Ok(Err(reason)),
    }
}

/// The name of a predicate behind the number of an operand.
fn predicate_behind<'a>(number: &Tree, predicate: &'a Tree) -> Option<&'a Name>
    ensures { option_copied result ≡ spec.predicate_behind number.now predicate.now }
{
    let _ = number_in(number)?;
    string(predicate)
}

/// The name of a predicate behind the number of an operand. A constraint may stand behind it.
fn predicate_in(parts: &[Tree]) -> Option<&Name>
    ensures { option_copied result ≡ spec.predicate_in parts.now }
{
    match parts {
        [number, predicate] => predicate_behind(number, predicate),
        [number, predicate, constraint] => {
            let _ = string(constraint)?;
            predicate_behind(number, predicate)
        }
        _ => None,
    }
}

fn predicate(alloc: Global, mode: Option<Mode>, parts: &[Tree]) -> Result<Judged<Test>, Memory>
    ensures { IfOk result (λ test. test ≡ spec.predicate_by mode (spec.predicate_in parts.now)) }
{
    let Some(name) = predicate_in(parts) else {
        return Ok(Err(Reason::Parts));
    };
    match mode {
        Some(mode) => {
            let name = name.copy(alloc)?;
            Ok(Ok(alone(alloc, Question::Predicate { name, mode })))
        }
        None => Ok(Err(Reason::Mode)),
    }
}

fn added(mut tests: Tests, test: Test) -> Result<Tests, Memory>
    ensures { IfOk result (λ all. all ≡ tests ++ test ∷ []) }
{
    tests.push(test)?;
    Ok(tests)
}

fn judged_added(tests: Judged<Tests>, test: Judged<Test>) -> Result<Judged<Tests>, Memory>
    ensures { IfOk result (λ all. all ≡ judged_with (λ xs x. xs ++ x ∷ []) tests test) }
{
    match both(tests, test) {
        Ok((tests, test)) => Ok(Ok(added(tests, test)?)),
        Err(reason) => Ok(Err(reason)),
    }
}

#[cycle(read)]
#[tactic(auto, using(crate::proofs::Each::joined_first, crate::proofs::Each::joined_ends))]
fn each(alloc: Global, constants: &Constants, trees: &[Tree]) -> Result<Judged<Tests>, Memory>
    ensures { IfOk result (λ tests.
        tests ≡ spec.each (map (spec.test_of constants.now) trees.now)) }
{
    let mut tests = Ok(Items::new(alloc));
    for tree in trees {
        let test = test_in(alloc, constants, tree)?;
        tests = judged_added(tests, test)?;
    }
    Ok(tests)
}

/// A test that is made of so many others.
#[cycle(read)]
fn joined(
    alloc: Global,
    constants: &Constants,
    question: Question,
    count: usize,
    parts: &[Tree],
) -> Result<Judged<Test>, Memory>
    ensures { IfOk result (λ test.
        test ≡ spec.joined question count (map (spec.test_of constants.now) parts.now)) }
{
    if parts.len() != count {
        return Ok(Err(Reason::Parts));
    }
    match each(alloc, constants, parts)? {
        Ok(parts) => Ok(Ok(Test { question, parts })),
        Err(reason) => Ok(Err(reason)),
    }
}

/// What stands behind the head of a test.
#[cycle(read)]
fn behind(
    alloc: Global,
    constants: &Constants,
    kind: TestKind,
    mode: Option<Mode>,
    parts: &[Tree],
) -> Result<Judged<Test>, Memory>
    ensures { IfOk result (λ test.
        test ≡ spec.behind constants.now kind mode parts.now
        (map (spec.test_of constants.now) parts.now)) }
{
    match kind {
        TestKind::Codes => codes(alloc, parts),
        TestKind::Condition => condition(alloc, constants, parts),
        TestKind::Predicate => predicate(alloc, mode, parts),
        TestKind::And => joined(alloc, constants, Question::And, 2, parts),
        TestKind::Ior => joined(alloc, constants, Question::Ior, 2, parts),
        TestKind::Not => joined(alloc, constants, Question::Not, 1, parts),
        TestKind::IfThenElse => joined(alloc, constants, Question::IfThenElse, 3, parts),
    }
}

#[cycle(read)]
fn list(
    alloc: Global,
    constants: &Constants,
    head: &[u8],
    parts: &[Tree],
) -> Result<Judged<Test>, Memory>
    ensures { IfOk result (λ test.
        test ≡ spec.of_kind constants.now (spec.kind_of head.now) (mode_of_head head.now) parts.now
        (map (spec.test_of constants.now) parts.now)) }
{
    match kind_of(head) {
        Some(kind) => behind(alloc, constants, kind, head_words(head).1, parts),
        None => Ok(Err(Reason::Parts)),
    }
}

#[cycle(read)]
#[tactic(auto, using(crate::proofs::TestLaws::test_out))]
fn test_in(alloc: Global, constants: &Constants, tree: &Tree) -> Result<Judged<Test>, Memory>
    ensures { IfOk result (λ test. test ≡ spec.test_of constants.now tree.now) }
{
    match items(tree) {
        [head, parts @ ..] => match atom(head) {
            Some(head) => list(alloc, constants, head.bytes(), parts),
            None => Ok(Err(Reason::Parts)),
        },
        [] => Ok(Err(Reason::Parts)),
    }
}

/// The test that a tree of a description writes, or the smallest reason that applies anywhere in
/// it.
///
/// A test is `(match_code "CODES")`, `(match_test "CONDITION")`, `(match_operand N "PREDICATE")`
/// with or without a mode and a constraint, which is ignored, or made of tests: `and` and `ior` of
/// two, `not` of one, `if_then_else` of three. `Parts` where it has other parts or another head,
/// `Code` where a code is unknown, `Mode` where a mode is none of the four, `Condition` where a
/// condition is outside the grammar. It goes as deep as the tree.
pub fn test_of(alloc: Global, tree: &Tree, constants: &Constants) -> Result<Judged<Test>, Memory>
    ensures value { IfOk result (λ test. test ≡ spec.test_of constants.now tree.now) }
    ensures tests { (t : Tree) (x : Test) →
        (spec.test_of constants.now t ≡ Ok x) ↔ spec.IsTest constants.now t x }
    ensures grammar { (bytes : List ℕ) →
        texts.Says reason.Condition (IsText Dialect.Test constants.now Condition bytes)
        (texts.test_condition_of constants.now bytes) }

    // A tree that is a test has no reason, and any other has the smallest of its reasons.
    ensures reasons { IsSmallest (HasReason constants.now tree.now)
        (spec.test_of constants.now tree.now) }
{
    test_in(alloc, constants, tree)
}
