//! Tests of attributes.
ghost use Rattle.std.specs.Prelude.{◌≡◌, ◌↔◌, List, ℕ, IfOk, map};
ghost use Rattle.std.specs.List.{list_all, list_any};
ghost use Rattle.std.specs.Option.{option_copied};
ghost use Rattle.std.specs.Str.{bytes_eq};
ghost use Rattle.md_text.specs.Lists.{each};
ghost use Rattle.md_forms.specs.declared.form.Entry.{Entry};
ghost use Rattle.md_attr.specs.machine.Tables.{AreAttributesOf};
ghost use Rattle.md_dfa.specs.Test as spec;

use lisp_read::{Tree, atom, items, string};
use md_attr::{Attributes, value};
use md_text::members_of;
use plain_data::{Items, Memory};
use rtx_tree::Name;
use std::alloc::Global;
use text_words::same;

/// What a test asks.
#[derive(Drop)]
pub enum Question {
    /// `(eq_attr "NAME" "VALUES")`: whether the attribute has one of these values.
    Equal { name: Name, values: Items<Name> },
    /// Whether both parts hold.
    And,
    /// Whether one of two parts holds.
    Ior,
    /// Whether the part does not hold.
    Not,
}

/// A test of the attributes of an instruction.
#[derive(Drop)]
pub struct Test {
    /// What the test asks.
    pub question: Question,
    /// The tests that it is made of.
    pub parts: Tests,
}

/// Some tests, in order.
pub type Tests = Items<Test>;

// ---- read from a tree

/// What stands at the head of a test.
#[derive(Clone, Copy)]
pub enum TestKind {
    /// `eq_attr`
    Equal,
    /// `and`
    And,
    /// `ior`
    Ior,
    /// `not`
    Not,
}

/// The kind of the test that this atom stands at the head of.
#[tactic(auto, unfolding(crate::specs::Test::kind_of))]
fn kind_of(head: &[u8]) -> Option<TestKind>
    ensures { result ≡ spec.kind_of head.now }
{
    if same(head, b"eq_attr") {
        Some(TestKind::Equal)
    } else if same(head, b"and") {
        Some(TestKind::And)
    } else if same(head, b"ior") {
        Some(TestKind::Ior)
    } else if same(head, b"not") {
        Some(TestKind::Not)
    } else {
        None
    }
}

fn equal_with(alloc: Global, name: &Name, values: &[u8]) -> Result<Test, Memory>
    ensures { IfOk result (λ test. test ≡ spec.equal_with name.now values.now) }
{
    Ok(Test {
        question: Question::Equal {
            name: name.copy(alloc)?,
            values: members_of(alloc, values)?,
        },
        parts: Items::new(alloc),
    })
}

/// The test of an attribute, by what stands behind its head.
#[tactic(auto, unfolding(crate::specs::Test::equal_in))]
fn equal_in(alloc: Global, parts: &[Tree]) -> Result<Option<Test>, Memory>
    ensures { IfOk result (λ test. test ≡ spec.equal_in parts.now) }
{
    match parts {
        [name, values] => match (string(name), string(values)) {
            (Some(name), Some(values)) => Ok(Some(equal_with(alloc, name, values.bytes())?)),
            _ => Ok(None),
        },
        _ => Ok(None),
    }
}

#[cycle(read)]
#[tactic(auto, using(md_text::proofs::Each::with_nothing, md_text::proofs::Each::each_next, md_text::proofs::Each::each_stops, md_text::proofs::Each::each_ends))]
fn all_tests(alloc: Global, trees: &[Tree]) -> Result<Option<Tests>, Memory>
    ensures { IfOk result (λ tests. tests ≡ each spec.test_of trees.now) }
{
    let mut tests = Items::new(alloc);
    for tree in trees {
        match test_in(alloc, tree)? {
            Some(test) => tests.push(test)?,
            None => return Ok(None),
        }
    }
    Ok(Some(tests))
}

/// A test that is made of so many others.
#[cycle(read)]
#[tactic(auto, using(crate::proofs::TestLaws::joined_is, crate::proofs::TestLaws::joined_not))]
fn joined(
    alloc: Global,
    question: Question,
    count: usize,
    parts: &[Tree],
) -> Result<Option<Test>, Memory>
    ensures { IfOk result (λ test. test ≡ spec.joined question count (map spec.test_of parts.now)) }
{
    if parts.len() != count {
        return Ok(None);
    }
    match all_tests(alloc, parts)? {
        Some(parts) => Ok(Some(Test { question, parts })),
        None => Ok(None),
    }
}

/// What stands behind the head of a test.
#[cycle(read)]
#[tactic(auto, unfolding(crate::specs::Test::behind))]
fn behind(alloc: Global, kind: TestKind, parts: &[Tree]) -> Result<Option<Test>, Memory>
    ensures { IfOk result (λ test. test ≡ spec.behind kind parts.now (map spec.test_of parts.now)) }
{
    match kind {
        TestKind::Equal => equal_in(alloc, parts),
        TestKind::And => joined(alloc, Question::And, 2, parts),
        TestKind::Ior => joined(alloc, Question::Ior, 2, parts),
        TestKind::Not => joined(alloc, Question::Not, 1, parts),
    }
}

#[cycle(read)]
fn list(alloc: Global, head: &[u8], parts: &[Tree]) -> Result<Option<Test>, Memory>
    ensures { IfOk result (λ test.
        test ≡ spec.of_kind (spec.kind_of head.now) parts.now (map spec.test_of parts.now)) }
{
    match kind_of(head) {
        Some(kind) => behind(alloc, kind, parts),
        None => Ok(None),
    }
}

/// The test that a tree writes, or none where it is outside. It goes as deep as the tree.
#[cycle(read)]
#[tactic(auto, using(crate::proofs::TestLaws::test_out))]
pub fn test_in(alloc: Global, tree: &Tree) -> Result<Option<Test>, Memory>
    ensures { IfOk result (λ test. test ≡ spec.test_of tree.now) }
{
    match items(tree) {
        [head, parts @ ..] => match atom(head) {
            Some(head) => list(alloc, head.bytes(), parts),
            None => Ok(None),
        },
        [] => Ok(None),
    }
}

// ---- asked

/// Whether a value is one of some.
fn is_one_of(values: &[Name], value: &[u8]) -> bool
    ensures { result ≡ list_any (λ v. bytes_eq v value.now) values.now }
{
    values.iter().any(|other| same(other.bytes(), value))
}

/// Whether an attribute has one of some values in an alternative of a form.
#[tactic(auto, unfolding(crate::specs::Test::has_value))]
fn has_value(attrs: &Attributes, name: &Name, values: &[Name], form: u32, alternative: u32) -> bool
    ensures { (forms : List Entry) → AreAttributesOf attrs.now forms →
        result ≡ spec.has_value forms form alternative name.now values.now }
{
    match value(attrs, name, form, alternative) {
        Some(value) => is_one_of(values, value.bytes()),
        None => false,
    }
}

#[cycle(ask)]
fn all_hold(tests: &[Test], attrs: &Attributes, form: u32, alternative: u32) -> bool
    ensures { (forms : List Entry) → AreAttributesOf attrs.now forms →
        result ≡ list_all (spec.test_holds forms form alternative) tests.now }
{
    for test in tests {
        if !holds(test, attrs, form, alternative) {
            return false;
        }
    }
    true
}

#[cycle(ask)]
fn any_holds(tests: &[Test], attrs: &Attributes, form: u32, alternative: u32) -> bool
    ensures { (forms : List Entry) → AreAttributesOf attrs.now forms →
        result ≡ list_any (spec.test_holds forms form alternative) tests.now }
{
    for test in tests {
        if holds(test, attrs, form, alternative) {
            return true;
        }
    }
    false
}

/// Whether a test holds in an alternative of a form. It goes as deep as the test.
#[cycle(ask)]
pub fn holds(test: &Test, attrs: &Attributes, form: u32, alternative: u32) -> bool
    ensures { (forms : List Entry) → AreAttributesOf attrs.now forms →
        result ≡ spec.test_holds forms form alternative test.now }
{
    let parts = test.parts.as_slice();
    match &test.question {
        Question::Equal { name, values } => {
            has_value(attrs, name, values.as_slice(), form, alternative)
        }
        Question::And => all_hold(parts, attrs, form, alternative),
        Question::Ior => any_holds(parts, attrs, form, alternative),
        Question::Not => !any_holds(parts, attrs, form, alternative),
    }
}
