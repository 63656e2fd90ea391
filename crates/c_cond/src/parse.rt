//! Conditions and statements, read from their texts.
ghost use Rattle.std.specs.Prelude.{◌≡◌, ℕ, List, [], ◌∷◌, IfOk};
ghost use Rattle.c_cond.specs.declared.tree.Tree.{Tree};
ghost use Rattle.c_cond.specs.Tree.{both, heads_of, tree_of};
ghost use Rattle.c_words.specs.declared.atom.Dialect.TheVariants as Dialect;
ghost use Rattle.c_words.specs.Tokens.{tokens_in};
ghost use Rattle.c_cond.specs.Grammar.{IsText, Condition, Statements};
ghost use Rattle.c_cond.specs.Answers.{Gives as GivesText};
ghost use Rattle.c_cond.specs.Beginning.{IsOutside};
ghost use Rattle.c_words.specs.declared.lexer.Pending.TheVariants as Pending;
ghost use Rattle.c_words.specs.machine.Known.{known_words};
ghost use Rattle.c_cond.specs.machine.Front as front;
ghost use Rattle.c_cond.specs.machine.Refuses.{Refuses};
ghost use Rattle.c_cond.specs.machine.Steps as spec;
ghost use Rattle.c_cond.specs.machine.Steps.{Gives};

use crate::front::reach;
use crate::goal::Goal;
use crate::parser::{Parser, StepError};
use c_words::{Binary, CondHead, Dialect, Token, tokens_in};
use name_places::Constants;
use plain_data::{Items, Memory};
use std::alloc::Global;
use std::marker::Model;
use thiserror::Error;

/// A condition. Contracts see its tree. It is kept as the heads of the tree, each behind its parts,
/// so that no depth of nesting takes more than memory.
#[derive(Drop)]
pub struct Cond {
    heads: Items<CondHead>,
}

impl Model for Cond {
    ghost use Rattle.c_cond.specs.declared.tree.Tree.{Tree};
    ghost use Rattle.c_cond.specs.contracts.tree.Tree as tree;
    ghost use Rattle.c_cond.specs.Tree.{tree_of, IsWhole};

    ghost Value = { Tree };

    ghost coded = { tree.the_row.coded };

    ghost view = { λ cond. tree_of cond.heads };

    ghost invariant = { λ cond. IsWhole cond.heads };
}

/// A copy of heads.
pub fn heads_copy(alloc: Global, heads: &[CondHead]) -> Result<Items<CondHead>, Memory>
    ensures { IfOk result (λ copy. copy ≡ heads.now) }
{
    let mut copy = Items::new(alloc);
    for head in heads {
        copy.push(head.copy(alloc)?)?;
    }
    Ok(copy)
}

impl Cond {
    /// A copy of the condition.
    pub fn copy(&self, alloc: Global) -> Result<Cond, Memory>
        ensures { IfOk result (λ cond. cond ≡ self.now) }
    {
        let heads = heads_copy(alloc, self.heads.as_slice())?;
        Ok(Cond { heads })
    }

    /// The heads of the tree, each behind its parts.
    pub fn heads(&self) -> &[CondHead]
        ensures heads { result.now ≡ heads_of self.now }
        ensures tree { tree_of result.now ≡ self.now }
    {
        self.heads.as_slice()
    }
}

impl Cond {
    /// The condition that holds where both hold.
    pub fn and(self, other: Cond) -> Result<Cond, Memory>
        ensures { IfOk result (λ condition. condition ≡ both self other) }
    {
        let mut heads = self.heads.into_vec();
        heads.append(&mut other.heads.into_vec())?;
        heads.push(CondHead::Binary(Binary::And))?;
        Ok(Cond {
            heads: Items::from_vec(heads),
        })
    }
}

/// Preparation statements. Contracts see their tree. They are kept as the heads of the tree, each
/// behind its parts.
#[derive(Drop)]
pub struct Prep {
    heads: Items<CondHead>,
}

impl Model for Prep {
    ghost use Rattle.std.specs.Prelude.{◌≡◌};
    ghost use Rattle.c_cond.specs.declared.tree.Tree.{Tree};
    ghost use Rattle.c_cond.specs.contracts.tree.Tree as tree;
    ghost use Rattle.c_cond.specs.Tree.{heads_of, tree_of};

    ghost Value = { Tree };

    ghost coded = { tree.the_row.coded };

    ghost view = { λ prep. tree_of prep.heads };

    ghost invariant = { λ prep. heads_of (tree_of prep.heads) ≡ prep.heads };
}

impl Prep {
    /// The heads of the tree, each behind its parts.
    pub fn heads(&self) -> &[CondHead]
        ensures heads { result.now ≡ heads_of self.now }
        ensures tree { tree_of result.now ≡ self.now }
    {
        self.heads.as_slice()
    }
}

/// Why a text was not read.
#[derive(Clone, Copy, Debug, Error)]
pub enum CondRefusal {
    /// The text is not in the grammar. The offset ends the longest prefix of it that begins a text
    /// of the grammar: it is the number of that prefix's bytes.
    #[error("outside the grammar")]
    Outside { offset: u64 },
    /// Memory ran out.
    #[error("out of memory")]
    Memory,
}

/// The tree of tokens, where this must come.
#[tactic(auto, unfolding(crate::specs::machine::Steps::run))]
fn parse_tokens(
    alloc: Global,
    dialect: Dialect,
    constants: &Constants,
    goal: Goal,
    tokens: &[Token],
) -> Result<Items<CondHead>, StepError>
    ensures { Gives result (spec.result_of dialect constants.now
        (spec.at [] (goal ∷ [])) tokens.now) }
{
    let mut parser = Parser::new(alloc, goal)?;
    for token in tokens {
        parser.step(alloc, dialect, constants, token)?;
    }
    parser.finish()
}

/// The tree of a text, where this must come.
fn parse(
    alloc: Global,
    dialect: Dialect,
    constants: &Constants,
    goal: Goal,
    text: &[u8],
) -> Result<Items<CondHead>, StepError>
    ensures { Gives result (spec.result_of dialect constants.now (spec.at [] (goal ∷ []))
        (tokens_in text.now)) }
{
    let tokens = tokens_in(alloc, text)?;
    parse_tokens(alloc, dialect, constants, goal, tokens.as_slice())
}

/// Why a text is refused that has no tree.
fn outside(
    alloc: Global,
    dialect: Dialect,
    constants: &Constants,
    goal: Goal,
    text: &[u8],
) -> CondRefusal
    ensures { Refuses result (front.reach dialect constants.now (known_words constants.now)
        (spec.at [] (goal ∷ [])) Pending.Nothing text.now) }
{
    match reach(alloc, dialect, constants, goal, text) {
        Ok(count) => CondRefusal::Outside {
            offset: count as u64,
        },
        Err(Memory) => CondRefusal::Memory,
    }
}

/// The condition that a text is in a dialect.
fn condition_of(
    alloc: Global,
    dialect: Dialect,
    constants: &Constants,
    text: &[u8],
) -> Result<Cond, CondRefusal>
    ensures { GivesText (IsText dialect constants.now Condition) text.now result }
{
    match parse(alloc, dialect, constants, Goal::Condition, text) {
        Ok(heads) => Ok(Cond { heads }),
        Err(StepError::Outside) => Err(outside(alloc, dialect, constants, Goal::Condition, text)),
        Err(StepError::Memory) => Err(CondRefusal::Memory),
    }
}

/// The statements that a text is.
fn statements_of(alloc: Global, constants: &Constants, text: &[u8]) -> Result<Prep, CondRefusal>
    ensures { GivesText (IsText Dialect.Condition constants.now Statements) text.now result }
{
    match parse(alloc, Dialect::Condition, constants, Goal::Statements, text) {
        Ok(heads) => Ok(Prep { heads }),
        Err(StepError::Outside) => Err(outside(
            alloc,
            Dialect::Condition,
            constants,
            Goal::Statements,
            text,
        )),
        Err(StepError::Memory) => Err(CondRefusal::Memory),
    }
}

/// The condition of a form that a text is.
///
/// # Errors
///
/// `Outside` exactly where the text is not in the grammar, with the offset that ends the longest
/// prefix of it that begins a text of the grammar. `Memory` where memory ran out.
pub fn parse_cond(alloc: Global, text: &[u8], constants: &Constants) -> Result<Cond, CondRefusal>
    // The answer is what the grammar says of the text, unless memory ran out.
    ensures answers { GivesText (IsText Dialect.Condition constants.now Condition) text.now result }
    // A text has one tree at most, and is outside at one place at most.
    ensures one { (a b : Tree) → IsText Dialect.Condition constants.now Condition text.now a →
        IsText Dialect.Condition constants.now Condition text.now b → a ≡ b }
    ensures one_place { (a b : ℕ) →
        IsOutside (IsText Dialect.Condition constants.now Condition) text.now a →
        IsOutside (IsText Dialect.Condition constants.now Condition) text.now b → a ≡ b }
{
    condition_of(alloc, Dialect::Condition, constants, text)
}

/// The test of a predicate that a text is: the operand is `op`, its number `ival`, and no predicate
/// may be called. `op` is read as operand 0.
///
/// # Errors
///
/// `Outside` exactly where the text is not in the grammar, with the offset that ends the longest
/// prefix of it that begins a text of the grammar. `Memory` where memory ran out.
pub fn parse_test(alloc: Global, text: &[u8], constants: &Constants) -> Result<Cond, CondRefusal>
    ensures answers { GivesText (IsText Dialect.Test constants.now Condition) text.now result }
    ensures one { (a b : Tree) → IsText Dialect.Test constants.now Condition text.now a →
        IsText Dialect.Test constants.now Condition text.now b → a ≡ b }
    ensures one_place { (a b : ℕ) →
        IsOutside (IsText Dialect.Test constants.now Condition) text.now a →
        IsOutside (IsText Dialect.Test constants.now Condition) text.now b → a ≡ b }
{
    condition_of(alloc, Dialect::Test, constants, text)
}

/// The preparation statements that a text is: none, one or more.
///
/// # Errors
///
/// `Outside` exactly where the text is not in the grammar, with the offset that ends the longest
/// prefix of it that begins a text of the grammar. `Memory` where memory ran out.
pub fn parse_prep(alloc: Global, text: &[u8], constants: &Constants) -> Result<Prep, CondRefusal>
    ensures answers { GivesText (IsText Dialect.Condition constants.now Statements) text.now
        result }
    ensures one { (a b : Tree) → IsText Dialect.Condition constants.now Statements text.now a →
        IsText Dialect.Condition constants.now Statements text.now b → a ≡ b }
    ensures one_place { (a b : ℕ) →
        IsOutside (IsText Dialect.Condition constants.now Statements) text.now a →
        IsOutside (IsText Dialect.Condition constants.now Statements) text.now b → a ≡ b }
{
    statements_of(alloc, constants, text)
}
