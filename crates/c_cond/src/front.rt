//! How far a text goes on as some text of the grammar does.
ghost use Rattle.std.specs.Prelude.{◌≡◌, ◌++◌, ◌∷◌, [], IfOk, OnOk};
ghost use Rattle.std.specs.List.{list_all, list_any};
ghost use Rattle.c_words.specs.Tokens as tokens;
ghost use Rattle.c_words.specs.declared.lexer.Pending.TheVariants as Pending;
ghost use Rattle.c_words.specs.machine.Known.{known_words};
ghost use Rattle.c_cond.specs.machine.Front as spec;
ghost use Rattle.c_words.specs.machine.Lexing.{at, read_byte};
ghost use Rattle.c_cond.specs.machine.Steps as steps;
ghost use Rattle.c_cond.specs.machine.Steps.{Steps};

use crate::goal::{Goal, Goals};
use crate::parser::{Parser, StepError};
use c_words::{
    Dialect, Lexer, Pending, Token, in_word, known_words, operator_of_two, token_of_byte,
    token_of_run,
};
use name_places::Constants;
use plain_data::{Items, Memory};
use rtx_tree::Name;
use std::alloc::Global;
use std::mem;

/// The bytes that may be the second of an operator.
const SECOND_BYTES: [u8; 5] = *b"|&=<>";

fn second_bytes() -> &'static [u8]
    ensures { result.now ≡ spec.second_bytes }
{
    &SECOND_BYTES
}

fn are_in_word(bytes: &[u8]) -> bool
    ensures { result ≡ list_all tokens.in_word bytes.now }
{
    for byte in bytes {
        if !in_word(*byte) {
            return false;
        }
    }
    true
}

/// Whether a run that begins a word may go on as the word.
fn goes_on_as(run: &[u8], word: &[u8]) -> bool
    ensures { result ≡ spec.goes_on_as run.now word.now }
{
    match word.strip_prefix(run) {
        Some(rest) => are_in_word(rest),
        None => false,
    }
}

fn run_taken(
    alloc: Global,
    dialect: Dialect,
    constants: &Constants,
    goals: &Goals,
    run: &[u8],
) -> Result<bool, Memory>
    ensures { IfOk result (λ taken.
        taken ≡ spec.run_taken dialect constants.now goals.now run.now) }
{
    let run = Items::from_vec(Vec::from_slice(alloc, run)?);
    goals.is_taken(alloc, dialect, constants, &token_of_run(run))
}

/// Whether a run may go on as one of these words, and is taken as it.
fn word_taken(
    alloc: Global,
    dialect: Dialect,
    constants: &Constants,
    words: &[Name],
    goals: &Goals,
    run: &[u8],
) -> Result<bool, Memory>
    ensures { IfOk result (λ taken.
        taken ≡ list_any (spec.word_taken dialect constants.now goals.now run.now) words.now) }
{
    for word in words {
        if goes_on_as(run, word.bytes()) {
            if run_taken(alloc, dialect, constants, goals, word.bytes())? {
                return Ok(true);
            }
        }
    }
    Ok(false)
}

fn with_zero(alloc: Global, run: &[u8]) -> Result<Vec<u8>, Memory>
    ensures { IfOk result (λ longer. longer.items ≡ run.now ++ 48 ∷ []) }
{
    let mut longer = Vec::from_slice(alloc, run)?;
    longer.push(b'0')?;
    Ok(longer)
}

/// Whether a run is taken, as it is or with more behind it.
fn run_goes_on(
    alloc: Global,
    dialect: Dialect,
    constants: &Constants,
    words: &[Name],
    goals: &Goals,
    run: &[u8],
) -> Result<bool, Memory>
    ensures { IfOk result (λ taken.
        taken ≡ spec.run_goes_on dialect constants.now words.now goals.now run.now) }
{
    if run_taken(alloc, dialect, constants, goals, run)? {
        return Ok(true);
    }
    let longer = with_zero(alloc, run)?;
    if run_taken(alloc, dialect, constants, goals, longer.as_slice())? {
        return Ok(true);
    }
    word_taken(alloc, dialect, constants, words, goals, run)
}

/// Whether a byte is taken as an operator with a second one.
fn operator_taken(
    alloc: Global,
    dialect: Dialect,
    constants: &Constants,
    goals: &Goals,
    first: u8,
) -> Result<bool, Memory>
    ensures { IfOk result (λ taken.
        taken ≡ list_any (λ b. spec.operator_taken dialect constants.now goals.now
        (tokens.operator_of_two first b)) spec.second_bytes) }
{
    for second in second_bytes() {
        if let Some(operator) = operator_of_two(first, *second) {
            if goals.is_taken(alloc, dialect, constants, &Token::Operator(operator))? {
                return Ok(true);
            }
        }
    }
    Ok(false)
}

fn byte_goes_on(
    alloc: Global,
    dialect: Dialect,
    constants: &Constants,
    goals: &Goals,
    first: u8,
) -> Result<bool, Memory>
    ensures { IfOk result (λ taken.
        taken ≡ spec.byte_goes_on dialect constants.now goals.now first) }
{
    if goals.is_taken(alloc, dialect, constants, &token_of_byte(first))? {
        return Ok(true);
    }
    operator_taken(alloc, dialect, constants, goals, first)
}

/// Whether what is pending may go on as a token that is taken.
fn goes_on(
    alloc: Global,
    dialect: Dialect,
    constants: &Constants,
    words: &[Name],
    goals: &Goals,
    pending: &Pending,
) -> Result<bool, Memory>
    ensures { IfOk result (λ taken.
        taken ≡ spec.goes_on dialect constants.now words.now goals.now pending.now) }
{
    match pending {
        Pending::Nothing => Ok(true),
        Pending::Run(run) => run_goes_on(alloc, dialect, constants, words, goals, run.as_slice()),
        Pending::Byte(first) => byte_goes_on(alloc, dialect, constants, goals, *first),
    }
}

#[tactic(auto, unfolding(crate::specs::machine::Steps::run))]
fn take_all(
    alloc: Global,
    dialect: Dialect,
    constants: &Constants,
    parser: &mut Parser,
    tokens: &[Token],
) -> Result<(), StepError>
    ensures { Steps result parser.new (steps.run dialect constants.now parser.old tokens.now) }
{
    for token in tokens {
        parser.step(alloc, dialect, constants, token)?;
    }
    Ok(())
}

/// The next byte of a text that begins some text of the grammar with it.
fn read(
    alloc: Global,
    dialect: Dialect,
    constants: &Constants,
    words: &[Name],
    parser: &mut Parser,
    lexer: &mut Lexer,
    byte: u8,
) -> Result<(), StepError>
    ensures lexer { OnOk result (lexer.new ≡ at [] (read_byte lexer.old byte).pending) }
    ensures parser { Steps result parser.new (spec.kept dialect constants.now words.now parser.old
        (read_byte lexer.old byte)) }
{
    lexer.read(alloc, byte)?;
    let tokens = mem::replace(&mut lexer.tokens, Items::new(alloc));
    take_all(alloc, dialect, constants, parser, tokens.as_slice())?;
    if goes_on(
        alloc,
        dialect,
        constants,
        words,
        &parser.goals,
        &lexer.pending,
    )? {
        return Ok(());
    }
    Err(StepError::Outside)
}

/// How many bytes of a text some text begins with, where the parser has read what stands before it.
#[tactic(auto, unfolding(crate::specs::machine::Front::reach))]
fn reach_from(
    alloc: Global,
    dialect: Dialect,
    constants: &Constants,
    words: &[Name],
    mut parser: Parser,
    text: &[u8],
) -> Result<usize, Memory>
    ensures { IfOk result (λ count.
        count ≡ spec.reach dialect constants.now words.now parser Pending.Nothing text.now) }
{
    let mut lexer = Lexer::new(alloc);
    for (count, byte) in text.iter().enumerate() {
        match read(
            alloc,
            dialect,
            constants,
            words,
            &mut parser,
            &mut lexer,
            *byte,
        ) {
            Ok(()) => {}
            Err(StepError::Outside) => return Ok(count),
            Err(StepError::Memory) => return Err(Memory),
        }
    }
    Ok(text.len())
}

/// How many bytes of a text some text begins with, where this must come.
pub fn reach(
    alloc: Global,
    dialect: Dialect,
    constants: &Constants,
    goal: Goal,
    text: &[u8],
) -> Result<usize, Memory>
    ensures { IfOk result (λ count.
        count ≡ spec.reach dialect constants.now (known_words constants.now)
        (steps.at [] (goal ∷ [])) Pending.Nothing text.now) }
{
    let words = known_words(alloc, constants)?;
    let parser = Parser::new(alloc, goal)?;
    reach_from(alloc, dialect, constants, words.as_slice(), parser, text)
}
