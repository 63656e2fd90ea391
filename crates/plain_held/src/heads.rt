//! Conditions and statements that are written out as rows of heads.
ghost use Rattle.std.specs.Prelude.{◌≡◌, ◌↔◌, IsTrue, map};
ghost use Rattle.c_cond.specs.c_words.declared.head.CondHead.TheVariants as heads;
ghost use Rattle.plain_held.specs.Rows as spec;

use crate::row::Word;
use c_cond::{Binary, Call, Cond, CondHead, Prep, Unary};
use rtx_tree::Mode;

fn is_number(head: &CondHead, number: i64) -> bool
    ensures { IsTrue result ↔ (head.now ≡ heads.Number number) }
{
    match head {
        CondHead::Number(own) => *own == number,
        _ => false,
    }
}

fn is_operand(head: &CondHead, number: u32) -> bool
    ensures { IsTrue result ↔ (head.now ≡ heads.Operand number) }
{
    match head {
        CondHead::Operand(own) => *own == number,
        _ => false,
    }
}

fn is_mode(head: &CondHead, mode: Mode) -> bool
    ensures { IsTrue result ↔ (head.now ≡ heads.Mode mode) }
{
    match head {
        CondHead::Mode(own) => own.same(mode),
        _ => false,
    }
}

fn same_unary(a: Unary, b: Unary) -> bool
    ensures { IsTrue result ↔ (a ≡ b) }
{
    a == b
}

fn is_unary(head: &CondHead, operator: Unary) -> bool
    ensures { IsTrue result ↔ (head.now ≡ heads.Unary operator) }
{
    match head {
        CondHead::Unary(own) => same_unary(*own, operator),
        _ => false,
    }
}

fn same_binary(a: Binary, b: Binary) -> bool
    ensures { IsTrue result ↔ (a ≡ b) }
{
    a == b
}

fn is_binary(head: &CondHead, operator: Binary) -> bool
    ensures { IsTrue result ↔ (head.now ≡ heads.Binary operator) }
{
    match head {
        CondHead::Binary(own) => same_binary(*own, operator),
        _ => false,
    }
}

fn same_call(a: Call, b: Call) -> bool
    ensures { IsTrue result ↔ (a ≡ b) }
{
    a == b
}

fn is_call(head: &CondHead, name: Call) -> bool
    ensures { IsTrue result ↔ (head.now ≡ heads.Call name) }
{
    match head {
        CondHead::Call(own) => same_call(*own, name),
        _ => false,
    }
}

fn is_predicate(head: &CondHead, name: &str) -> bool
    ensures { IsTrue result ↔ (head.now ≡ heads.Predicate name.now) }
{
    match head {
        CondHead::Predicate(own) => own.bytes() == name.as_bytes(),
        _ => false,
    }
}

fn is_assign(head: &CondHead, number: u32) -> bool
    ensures { IsTrue result ↔ (head.now ≡ heads.Assign number) }
{
    match head {
        CondHead::Assign(own) => *own == number,
        _ => false,
    }
}

/// Whether a head is that of a word.
fn is_head(head: &CondHead, word: Word) -> bool
    ensures { IsTrue result ↔ (head.now ≡ spec.head_of word) }
{
    match word {
        Word::Number(number) => is_number(head, number),
        Word::Ival => matches!(head, CondHead::Ival),
        Word::Operand(number) => is_operand(head, number),
        Word::Mode(mode) => is_mode(head, mode),
        Word::Not => is_unary(head, Unary::Not),
        Word::Negative => is_unary(head, Unary::Negative),
        Word::Binary(operator) => is_binary(head, operator),
        Word::Choose => matches!(head, CondHead::Choose),
        Word::Call(name) => is_call(head, name),
        Word::Predicate(name) => is_predicate(head, name),
        Word::Assign(number) => is_assign(head, number),
        Word::If => matches!(head, CondHead::If),
        Word::Nothing => matches!(head, CondHead::Nothing),
        Word::Then => matches!(head, CondHead::Then),
    }
}

/// Whether heads are those of some words.
#[tactic(auto, using(crate::proofs::Same::same_lists))]
fn are_heads(heads: &[CondHead], words: &[Word]) -> bool
    ensures { IsTrue result ↔ (heads.now ≡ map spec.head_of words.now) }
{
    if heads.len() != words.len() {
        return false;
    }
    for i in 0..heads.len() {
        if !is_head(&heads[i], words[i]) {
            return false;
        }
    }
    true
}

/// Whether a condition is that of some words, which are those of one whole tree.
pub fn is_condition(condition: &Cond, words: &[Word]) -> bool
    requires { IsTrue (spec.is_whole words.now) }
    ensures { IsTrue result ↔ (condition.now ≡ spec.condition_of words.now) }
{
    are_heads(condition.heads(), words)
}

/// Whether statements are those of some words, which are those of one whole tree.
pub fn are_statements(statements: &Prep, words: &[Word]) -> bool
    requires { IsTrue (spec.is_whole words.now) }
    ensures { IsTrue result ↔ (statements.now ≡ spec.condition_of words.now) }
{
    are_heads(statements.heads(), words)
}
