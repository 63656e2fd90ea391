//! The tests of predicates and of constraints.
ghost use Rattle.std.specs.Prelude.{◌≡◌, ◌↔◌, [], ◌∷◌, IsTrue, Some, None};
ghost use Rattle.rtx_tree.specs.declared.code.Mode.TheVariants as modes;
ghost use Rattle.pred_expr.specs.declared.question.Question.TheVariants as questions;
ghost use Rattle.plain_held.specs.Rows as spec;

use crate::heads::is_condition;
use crate::row::{Asked, Word};
use pred_expr::{Question, Test};
use rtx_tree::{Code, Mode};

fn same_code(a: Code, b: Code) -> bool
    ensures { IsTrue result ↔ (a ≡ b) }
{
    a.same(b)
}

// ---- what a test asks by itself

fn asks_for_code(question: &Question, code: Code) -> bool
    ensures { IsTrue result ↔ (question.now ≡ questions.Codes (code ∷ [])) }
{
    match question {
        Question::Codes(codes) => match codes.as_slice() {
            [own] => same_code(*own, code),
            _ => false,
        },
        _ => false,
    }
}

fn asks_for_condition(question: &Question, words: &[Word]) -> bool
    requires { IsTrue (spec.is_whole words.now) }
    ensures { IsTrue result ↔
        (question.now ≡ questions.Condition (spec.condition_of words.now)) }
{
    match question {
        Question::Condition(own) => is_condition(own, words),
        _ => false,
    }
}

fn asks_for_predicate(question: &Question, predicate: &[u8]) -> bool
    ensures { IsTrue result ↔ (question.now ≡ questions.Predicate predicate.now modes.Void) }
{
    match question {
        Question::Predicate { name, mode } => { name.bytes() == predicate && mode.same(Mode::Void) }
        _ => false,
    }
}

// ---- tests without parts

/// Whether a test is `(match_code CODE)`.
fn has_code(test: &Test, code: Code) -> bool
    ensures { IsTrue result ↔ (test.now ≡ spec.code_test code) }
{
    test.parts.is_empty() && asks_for_code(&test.question, code)
}

/// Whether a test is that of a condition.
fn has_condition(test: &Test, words: &[Word]) -> bool
    requires { IsTrue (spec.is_whole words.now) }
    ensures { IsTrue result ↔ (test.now ≡ spec.condition_test words.now) }
{
    test.parts.is_empty() && asks_for_condition(&test.question, words)
}

/// Whether a test is `(match_operand 0 PREDICATE)`.
fn has_predicate(test: &Test, predicate: &[u8]) -> bool
    ensures { IsTrue result ↔ (test.now ≡ spec.predicate_test predicate.now) }
{
    test.parts.is_empty() && asks_for_predicate(&test.question, predicate)
}

// ---- tests of two parts

fn asks_for_both(question: &Question) -> bool
    ensures { IsTrue result ↔ (question.now ≡ questions.And) }
{
    matches!(question, Question::And)
}

fn asks_for_either(question: &Question) -> bool
    ensures { IsTrue result ↔ (question.now ≡ questions.Ior) }
{
    matches!(question, Question::Ior)
}

/// Whether a test is that of a constant for which a condition holds.
fn has_constant(test: &Test, words: &[Word]) -> bool
    requires { IsTrue (spec.is_whole words.now) }
    ensures { IsTrue result ↔ (test.now ≡ spec.constant_test words.now) }
{
    match test.parts.as_slice() {
        [code, condition] => {
            asks_for_both(&test.question)
                && has_code(code, Code::ConstInt)
                && has_condition(condition, words)
        }
        _ => false,
    }
}

fn has_register(test: &Test) -> bool
    ensures { IsTrue result ↔ (test.now ≡ spec.register_test) }
{
    has_predicate(test, b"register_operand")
}

/// Whether a test is that of a register, or of a constant for which a condition holds.
fn has_register_or(test: &Test, words: &[Word]) -> bool
    requires { IsTrue (spec.is_whole words.now) }
    ensures { IsTrue result ↔
        (test.now ≡ spec.either spec.register_test (spec.constant_test words.now)) }
{
    match test.parts.as_slice() {
        [register, constant] => {
            asks_for_either(&test.question)
                && has_register(register)
                && has_constant(constant, words)
        }
        _ => false,
    }
}

/// Whether a test is that of a register or of what a predicate accepts.
fn has_register_or_accepted(test: &Test, predicate: &[u8]) -> bool
    ensures { IsTrue result ↔
        (test.now ≡ spec.either spec.register_test (spec.predicate_test predicate.now)) }
{
    match test.parts.as_slice() {
        [register, other] => {
            asks_for_either(&test.question)
                && has_register(register)
                && has_predicate(other, predicate)
        }
        _ => false,
    }
}

/// Whether a test is that of a register or of an operand of a code.
fn has_register_or_code(test: &Test, code: Code) -> bool
    ensures { IsTrue result ↔
        (test.now ≡ spec.either spec.register_test (spec.code_test code)) }
{
    match test.parts.as_slice() {
        [register, other] => {
            asks_for_either(&test.question) && has_register(register) && has_code(other, code)
        }
        _ => false,
    }
}

fn is_asked(test: &Test, asked: Asked) -> bool
    requires { IsTrue (spec.is_whole_test asked) }
    ensures { IsTrue result ↔ (Some test.now ≡ spec.test_of asked) }
{
    match asked {
        Asked::Nothing => false,
        Asked::Constant(words) => has_constant(test, words),
        Asked::RegisterOr(words) => has_register_or(test, words),
        Asked::RegisterOrConstant => has_register_or_accepted(test, b"const_int_operand"),
        Asked::RegisterOrSymbol => has_register_or_code(test, Code::SymbolRef),
    }
}

/// Whether the test of a form is the one that is asked.
pub fn is_test(test: &Option<Test>, asked: Asked) -> bool
    requires { IsTrue (spec.is_whole_test asked) }
    ensures { IsTrue result ↔ (test.now ≡ spec.test_of asked) }
{
    match test {
        Some(test) => is_asked(test, asked),
        None => matches!(asked, Asked::Nothing),
    }
}
